// What stands in the ledger.

use crate::key::Key;
use plan_base::{GroupNo, RequestNo};

/// What an entry does to the balance of its account.
#[derive(Clone, Copy)]
pub enum EntryKind {
    /// Adds seconds that the proposal may use.
    Grant,
    /// Takes seconds that a request has used, or by which a group was raised.
    Charge,
    /// Gives the seconds of an earlier charge back.
    Refund,
}

/// An entry of the ledger, of which contracts speak; no value of it is ever made, as the ledger keeps the places of accounts. A
/// number that doesn't apply is 0.
pub struct Entry {
    /// Whose account it is.
    pub key: Key,
    /// Whether the account gains or loses the seconds.
    pub kind: EntryKind,
    /// How many seconds the account gains or loses.
    pub seconds: u64,
    /// The group that is charged or refunded.
    pub group: GroupNo,
    /// The request that is charged, 0 where the group is.
    pub request: RequestNo,
}

impl Drop for Entry {
    fn drop(self) {
        let Self {
            key: _,
            kind: _,
            seconds: _,
            group: _,
            request: _,
        } = self;
    }
}

/// Seconds of an account that a group holds for its pending requests.
pub struct Hold {
    /// The account.
    pub key: Key,
    /// How many of its seconds are held.
    pub seconds: u64,
}

impl Drop for Hold {
    fn drop(self) {
        let Self { key: _, seconds: _ } = self;
    }
}
