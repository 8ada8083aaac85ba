// What a line asks the desk to do.

use allocations::Key;
use plan_base::{Claim, GroupNo, ListOf, Name, RequestNo, Sec, Span};
use request_model::GroupDoc;
use site_model::Scope;

/// What a line asks for, by the word of its member `do`, with the members that stand after it. Texts have 1 to 128
/// bytes; a list of spans has at most 512, each with its first second before its end.
pub enum Command {
    /// `open`: the desk is opened.
    Open {
        /// The moment at which it opens.
        now: Sec,
        /// How long a slice is, 60 to 3,600 seconds.
        slice: u32,
        /// How many slices the horizon has, 1 to 1,440.
        horizon: u32,
        /// All windows of all requests lie in it.
        semester: Span,
        /// How many sequences of rounds a plan takes, 1 to 8.
        lanes: u32,
        /// How many rounds a lane has, 1 to 256.
        rounds: u32,
        /// How many threads plan, 1 to 8.
        workers: u32,
        /// The most seconds of one proposal in a plan, 1 to 100,000,000, where there is such a limit.
        quota: Option<u64>,
    },
    /// `instrument`: an instrument type is registered, with what it takes beside exposures in milliseconds, 0 to
    /// 86,400,000 each.
    Instrument {
        /// The member `type`.
        name: Name,
        /// Before all else, once a request.
        front_ms: u32,
        /// Before each configuration.
        config_ms: u32,
        /// After each exposure.
        readout_ms: u32,
        /// Once for each instrument configuration.
        change_ms: u32,
    },
    /// `telescope`: a telescope is registered.
    Telescope {
        /// The code of its site, a new one where no telescope has it.
        site: Name,
        /// The code of its enclosure.
        enclosure: Name,
        /// Its own code: no other telescope has all three.
        telescope: Name,
        /// The class of its aperture, such as `1m0`.
        class: Name,
        /// The instrument types that it carries, 1 to 16.
        instruments: ListOf<Name>,
    },
    /// `night`: when it is night at a site.
    Night {
        /// The site's code.
        site: Name,
        /// The seconds of its nights, in place of those before.
        spans: ListOf<Span>,
    },
    /// `visibility`: when a target can be observed from a site.
    Visibility {
        /// The target's name.
        target: Name,
        /// The site's code.
        site: Name,
        /// The seconds at which it can be observed from there, in place of those before.
        spans: ListOf<Span>,
    },
    /// `close`: telescopes are closed.
    Close {
        /// The telescope of the members `site`, `enclosure` and `telescope` where `telescope` is there, else the site.
        scope: Scope,
        /// The seconds for which they are closed, beside those of before.
        spans: ListOf<Span>,
    },
    /// `reopen`: closures are taken back.
    Reopen {
        /// As that of `close`.
        scope: Scope,
        /// The seconds for which they are closed no longer.
        spans: ListOf<Span>,
    },
    /// `grant`: a time account gets seconds.
    Grant {
        /// The members `proposal`, `account` and `instrument_type`; the last is empty for the account `ipp`.
        key: Key,
        /// 1 to 1,000,000,000.
        seconds: u64,
    },
    /// `submit`: a request group is submitted.
    Submit {
        /// The group, as its document has it.
        group: GroupDoc,
    },
    /// `amend`: a group is withdrawn and another submitted in its place.
    Amend {
        /// The number of the group that is withdrawn.
        group_number: GroupNo,
        /// The group that is submitted, as its document has it.
        group: GroupDoc,
    },
    /// `withdraw`: a group is withdrawn.
    Withdraw {
        /// The number of the group.
        group_number: GroupNo,
    },
    /// `clock`: the desk's time moves on to `at`.
    Clock {
        /// The moment that it then is.
        at: Sec,
    },
    /// `report`: an observation has ended.
    Report {
        /// The number of the request that was observed.
        request: RequestNo,
        /// How much of it was taken, 0 to 100.
        percent: u8,
        /// The seconds that it took, 0 to 86,400.
        used: u64,
    },
    /// `plan`: a plan is sought and published.
    Plan,
    /// `publish`: a claim that was made elsewhere is published, if it is certified.
    Publish {
        /// The version of the desk that it is meant for, 0 to 524,288.
        version: u64,
        /// The plan with its value, its bound and the prices that give it.
        claim: Claim,
    },
    /// `export`: the last publication is shown.
    Export,
    /// `balances`: all time accounts are shown.
    Balances,
    /// `show`: a group is shown.
    Show {
        /// The number of the group.
        group_number: GroupNo,
    },
}

impl Drop for Command {
    fn drop(self) {
        match self {
            Self::Open {
                now: _,
                slice: _,
                horizon: _,
                semester: _,
                lanes: _,
                rounds: _,
                workers: _,
                quota: _,
            } => {}
            Self::Instrument {
                name: _,
                front_ms: _,
                config_ms: _,
                readout_ms: _,
                change_ms: _,
            } => {}
            Self::Telescope {
                site: _,
                enclosure: _,
                telescope: _,
                class: _,
                instruments: _,
            } => {}
            Self::Night { site: _, spans: _ } => {}
            Self::Visibility {
                target: _,
                site: _,
                spans: _,
            } => {}
            Self::Close { scope: _, spans: _ } => {}
            Self::Reopen { scope: _, spans: _ } => {}
            Self::Grant { key: _, seconds: _ } => {}
            Self::Submit { group: _ } => {}
            Self::Amend {
                group_number: _,
                group: _,
            } => {}
            Self::Withdraw { group_number: _ } => {}
            Self::Clock { at: _ } => {}
            Self::Report {
                request: _,
                percent: _,
                used: _,
            } => {}
            Self::Plan => {}
            Self::Publish {
                version: _,
                claim: _,
            } => {}
            Self::Export => {}
            Self::Balances => {}
            Self::Show { group_number: _ } => {}
        }
    }
}
