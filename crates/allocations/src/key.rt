// What names an account.

ghost use Rattle.std.specs.Prelude.{◌≡◌, IfOk};
ghost use Rattle.allocations.specs.Key.{is_key};
ghost use Rattle.allocations.specs.Refusals.{ipp_key};

use plan_base::Name;
use std::alloc::{AllocError, Global};

/// Which of a proposal's accounts. Requests of the observation type NORMAL use the standard account, the others the
/// account of their type's name. The accounts of a proposal are in this order.
#[derive(Clone, Copy, Debug, PartialEq, Eq, PartialOrd, Ord)]
pub enum Account {
    /// Seconds for requests of the type NORMAL, on one instrument type.
    Standard,
    /// Seconds for requests of the type TIME_CRITICAL, on one instrument type.
    TimeCritical,
    /// Seconds for requests of the type RAPID_RESPONSE, on one instrument type.
    RapidResponse,
    /// Seconds by which groups are raised over others, the intra-proposal priority, on all instrument types.
    Ipp,
}

/// The name of an account. Keys are in the order of their proposals' bytes, then of the accounts, then of the
/// instrument types' bytes.
#[derive(Clone, PartialEq, Eq, PartialOrd, Ord)]
pub struct Key {
    /// Whose time it is.
    pub proposal: Name,
    /// For which observations it is.
    pub account: Account,
    /// The instrument type, empty for the account `Ipp`.
    pub instrument: Name,
}

impl Drop for Key {
    fn drop(self) {
        let Self {
            proposal: _,
            account: _,
            instrument: _,
        } = self;
    }
}

impl Key {
    /// The key of a proposal's ipp account. Fails only for want of memory.
    pub fn ipp(alloc: Global, proposal: &Name) -> Result<Key, AllocError>
        ensures { IfOk result (λ key. key ≡ ipp_key proposal.now) }
    {
        let Some(instrument) = Name::new(alloc, "")? else {
            unreachable!();
        };
        Ok(Key {
            proposal: proposal.clone()?,
            account: Account::Ipp,
            instrument,
        })
    }

    /// Whether both are the key of one account.
    pub fn is(&self, other: &Key) -> bool
        ensures { result ≡ is_key self.now other.now }
    {
        self.cmp(other).is_eq()
    }
}
