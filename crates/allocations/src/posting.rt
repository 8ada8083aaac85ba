// How entries and groups are kept: accounts by place.

use crate::entry::EntryKind;
use crate::sums::Amount;
use plan_base::{GroupNo, ListOf, RequestNo};

/// An entry, with its account's place.
#[derive(Clone, Copy)]
pub(crate) struct Posting {
    /// The place of its account in the register, from 0.
    pub account: usize,
    /// Whether the account gains or loses the seconds.
    pub kind: EntryKind,
    /// How many seconds the account gains or loses.
    pub seconds: u64,
    /// The group that is charged or refunded, 0 where none is.
    pub group: GroupNo,
    /// The request that is charged, 0 where none is.
    pub request: RequestNo,
}

/// What a group holds, by rising keys, and its ipp charge while that stands and wasn't refunded.
pub(crate) struct GroupState {
    /// Its number of the desk; the groups that are kept rise by it.
    pub group: GroupNo,
    /// The seconds of each account that it holds.
    pub holds: ListOf<Amount>,
    /// The seconds that its proposal's ipp account was charged for it, while that stands.
    pub ipp: Option<Amount>,
}

impl Drop for GroupState {
    fn drop(self) {
        let Self {
            group: _,
            holds: _,
            ipp: _,
        } = self;
    }
}
