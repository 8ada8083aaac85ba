// Why the ledger refuses.

ghost use Rattle.std.specs.Prelude.{◌≡◌};
ghost use Rattle.allocations.specs.declared.fault.LedgerFault.TheVariants.{NoMemory};

use crate::key::Account;
use std::alloc::{AllocError, AllocFailed};
use thiserror::Error;

/// What a ledger has a most of.
#[derive(Clone, Copy, Debug)]
pub enum FullOf {
    /// The accounts of all proposals, at most 1,024.
    Accounts,
}

/// Why the ledger refuses a grant or a hold. It is then as before.
#[derive(Clone, Copy, Debug, Error)]
pub enum LedgerFault {
    /// The grant would make more accounts than there may be.
    #[error("there are {limit} {what:?} already")]
    Full { limit: u64, what: FullOf },
    /// The proposal has no account.
    #[error("the proposal has no account")]
    NoSuchProposal,
    /// The proposal hasn't this account, on this instrument type.
    #[error("the proposal has no account {account:?} there")]
    NoSuchAllocation { account: Account },
    /// The account has fewer seconds left than are needed.
    #[error("{needed} seconds are needed, and {available} available")]
    NotEnoughTime { needed: u64, available: u64 },
    /// Memory ran out.
    #[error("out of memory")]
    NoMemory,
}

impl From<AllocError> for LedgerFault {
    ghost from_gives = { λ _ fault. fault ≡ NoMemory };

    fn from(_error: AllocError) -> LedgerFault {
        LedgerFault::NoMemory
    }
}

impl<T: Drop> From<AllocFailed<T>> for LedgerFault {
    ghost from_gives = { λ _ fault. fault ≡ NoMemory };

    fn from(_error: AllocFailed<T>) -> LedgerFault {
        LedgerFault::NoMemory
    }
}
