// Why a line is refused.

use allocations::Account;
use plan_base::{Op, Reason, RequestNo, RequestState, Sec};
use plan_json::Member;

/// What a desk has a most of.
#[derive(Clone, Copy)]
pub enum FullOf {
    /// Instrument types, 64.
    Instruments,
    /// Telescopes, 32.
    Telescopes,
    /// Sites, 16.
    Sites,
    /// Targets, 2,048.
    Targets,
    /// Pieces of all skies, 262,144.
    Visibility,
    /// Pieces of one telescope's closures, 512.
    Closures,
    /// Time accounts, 1,024.
    Accounts,
    /// Pending requests, 1,024.
    Requests,
}

/// Why a line is refused, each with the number that its entry has. An `index` is the place of a request or an
/// instrument type in its list, from 0, and 0 where there is no list.
#[derive(Clone, Copy)]
pub enum Refusal {
    /// 1: the line isn't the UTF-8 of one JSON text.
    NotJson,
    /// 2: the text isn't an object.
    NotObject,
    /// 3: the member isn't there, or it is `null`.
    Missing { member: Member },
    /// 4: the member, or an element of it, is of another kind.
    WrongKind { member: Member },
    /// 5: a number isn't whole.
    NotWhole { member: Member },
    /// 6: a number, a text's length, a list's count, a word or a span is outside its range.
    OutOfRange { member: Member },
    /// 7: a text names no moment.
    BadMoment { member: Member },
    /// 8: the group has so many requests, which its operator doesn't allow.
    BadShape { count: u64, operator: Op },
    /// 9: this window of this request has no second.
    BadWindow { index: u32, window: u32 },
    /// 10: the cadence of this request has no windows, or its group isn't a `SINGLE`.
    BadCadence { index: u32 },
    /// 11: the cadence of this request has more than 256 centres.
    TooManyWindows { count: u64, index: u32 },
    /// 12: this request takes more than a day.
    TooLong { index: u32, seconds: u64 },
    /// 13: no telescope has this code.
    NoSuchTelescope,
    /// 14: no telescope is at a site of this name.
    NoSuchSite,
    /// 15: the instrument type or the telescope is registered already.
    Repeated,
    /// 16: there would be more than there may be.
    Full { limit: u64, what: FullOf },
    /// 17: the proposal has no account.
    NoSuchProposal,
    /// 18: the proposal hasn't this account, on the instrument type that it is needed on.
    NoSuchAllocation { account: Account },
    /// 19: the account has fewer seconds left than are needed.
    NotEnoughTime { available: u64, needed: u64 },
    /// 20: the desk has to be opened first.
    NotOpened,
    /// 21: the desk was opened before.
    AlreadyOpened,
    /// 22: a window of this request isn't inside the semester.
    OutsideSemester { index: u32 },
    /// 23: no telescope can take this request.
    NoTelescope { index: u32 },
    /// 24: no group has this number.
    NoSuchGroup,
    /// 25: the group isn't pending any more.
    GroupClosed { state: RequestState },
    /// 26: this request of the group is running or completed.
    GroupStarted { request: RequestNo },
    /// 27: no request has this number.
    NoSuchRequest,
    /// 28: the request isn't running.
    NotRunning,
    /// 29: more seconds are reported than the request takes.
    UsedTooLong { most: u64, used: u64 },
    /// 30: the moment is before the present one.
    ClockBack { asked: Sec, now: Sec },
    /// 31: the claim or plan is for the version `asked`, and the desk has the version `newer`.
    Stale { asked: u64, newer: u64 },
    /// 32: the claim isn't certified, for this first reason.
    Rejected { reason: Reason },
    /// 33: no command has this name.
    UnknownCommand,
    /// 34: the line has more than 1,048,576 bytes.
    LineTooLong,
    /// 35: the configurations of this request have several instrument types.
    MixedInstruments { index: u32 },
    /// 36: this instrument type, or that of this request, isn't registered.
    NoSuchInstrument { index: u32 },
    /// 37: nothing was published yet.
    NothingPublished,
    /// 38: there are so many possible starts, more than the 1,048,576 that are planned.
    TooManyStarts { count: u64 },
    /// 40: all windows of this request, or of one made from its cadence, have ended.
    WindowPast { index: u32 },
}
