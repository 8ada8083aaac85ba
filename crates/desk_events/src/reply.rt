// What the desk replies to a line.

use crate::refusal::Refusal;
use allocations::Key;
use plan_base::{Claim, GroupNo, ListOf, RequestNo, RequestState, Snapshot, TelescopeNo};
use request_model::GroupDoc;

/// What a group's ipp account gets back, written as `[group,seconds]`.
#[derive(Clone, Copy)]
pub struct GroupRefund {
    /// The group that was charged.
    pub group: GroupNo,
    /// Above 0: all that its ipp account was charged for it.
    pub seconds: u64,
}

/// What a time account has.
pub struct AccountBalance {
    /// The members `proposal`, `account` and `instrument_type`.
    pub key: Key,
    /// Its seconds: those granted and those refunded, less those charged.
    pub balance: u64,
    /// The seconds of these that no open group holds.
    pub available: u64,
}

impl Drop for AccountBalance {
    fn drop(self) {
        let Self {
            key: _,
            balance: _,
            available: _,
        } = self;
    }
}

/// How far a request has come.
#[derive(Clone, Copy)]
pub struct MemberState {
    /// The request.
    pub request: RequestNo,
    /// Its state.
    pub state: RequestState,
}

/// What is replied to a line, by the word of the member `ok`, with the further members. Lists of request numbers rise,
/// and so do the groups of a list of refunds.
pub enum Reply {
    /// `opened`
    Opened,
    /// `instrument`: it is registered.
    Instrument,
    /// `telescope`: it is registered and has this number.
    Telescope {
        /// 0 to 31, in the order in which telescopes are registered.
        telescope: TelescopeNo,
    },
    /// `night`: the site's night is as the line says.
    Night,
    /// `visibility`: the target's sky at the site is as the line says.
    Visibility,
    /// `closed`
    Closed,
    /// `reopened`
    Reopened,
    /// `granted`: the account has so many seconds now.
    Granted {
        /// Its seconds: those granted and those refunded, less those charged.
        balance: u64,
    },
    /// `submitted`
    Submitted {
        /// The number that the group was given.
        group: GroupNo,
        /// The seconds that its ipp account was charged.
        ipp_charged: u64,
        /// The numbers that its requests were given.
        requests: ListOf<RequestNo>,
    },
    /// `amended`
    Amended {
        /// The number that the new group was given.
        group: GroupNo,
        /// The seconds that its ipp account was charged.
        ipp_charged: u64,
        /// What was refunded of the old group.
        refunded: ListOf<GroupRefund>,
        /// The number of the old group.
        replaces: GroupNo,
        /// The numbers that the new requests were given.
        requests: ListOf<RequestNo>,
    },
    /// `withdrawn`
    Withdrawn {
        /// What was refunded of the group.
        refunded: ListOf<GroupRefund>,
    },
    /// `clocked`
    Clocked {
        /// The requests whose windows have ended, and those that can't be taken without them.
        expired: ListOf<RequestNo>,
        /// The requests that ended without a report.
        failed: ListOf<RequestNo>,
        /// What was refunded of the groups that are no longer pending.
        refunded: ListOf<GroupRefund>,
        /// The requests that began to run.
        started: ListOf<RequestNo>,
    },
    /// `completed`: enough of the request was taken.
    Completed {
        /// The requests of its group that are no longer wanted.
        canceled: ListOf<RequestNo>,
        /// The seconds that were charged, 0 to 86,400.
        charged: u64,
    },
    /// `failed`: too little of the request was taken.
    Failed {
        /// The requests whose windows have ended, and those that can't be taken without them.
        expired: ListOf<RequestNo>,
        /// What was refunded of the groups that are no longer pending.
        refunded: ListOf<GroupRefund>,
    },
    /// `taken`: the snapshot of a plan was taken.
    Taken,
    /// `published`: the claim's placements are the plan from now on.
    Published {
        /// The claim, certified for the snapshot of the desk.
        claim: Claim,
    },
    /// `exported`: the last claim that was published, and the snapshot that it is of.
    Exported {
        /// That claim.
        claim: Claim,
        /// The snapshot for which it is certified.
        snapshot: Snapshot,
    },
    /// `balances`: all accounts, by proposal, then in the order of accounts, then by instrument type.
    Balances {
        /// What each of them has.
        balances: ListOf<AccountBalance>,
    },
    /// `shown`
    Shown {
        /// The group as it was submitted.
        document: GroupDoc,
        /// The group's number.
        group: GroupNo,
        /// How far each of its requests has come, by rising numbers.
        requests: ListOf<MemberState>,
        /// How far the group has come.
        state: RequestState,
    },
    /// The line is refused, and the desk is as before.
    Refused(Refusal),
}

impl Drop for Reply {
    fn drop(self) {
        match self {
            Self::Opened => {}
            Self::Instrument => {}
            Self::Telescope { telescope: _ } => {}
            Self::Night => {}
            Self::Visibility => {}
            Self::Closed => {}
            Self::Reopened => {}
            Self::Granted { balance: _ } => {}
            Self::Submitted {
                group: _,
                ipp_charged: _,
                requests: _,
            } => {}
            Self::Amended {
                group: _,
                ipp_charged: _,
                refunded: _,
                replaces: _,
                requests: _,
            } => {}
            Self::Withdrawn { refunded: _ } => {}
            Self::Clocked {
                expired: _,
                failed: _,
                refunded: _,
                started: _,
            } => {}
            Self::Completed {
                canceled: _,
                charged: _,
            } => {}
            Self::Failed {
                expired: _,
                refunded: _,
            } => {}
            Self::Taken => {}
            Self::Published { claim: _ } => {}
            Self::Exported {
                claim: _,
                snapshot: _,
            } => {}
            Self::Balances { balances: _ } => {}
            Self::Shown {
                document: _,
                group: _,
                requests: _,
                state: _,
            } => {}
            Self::Refused(_) => {}
        }
    }
}
