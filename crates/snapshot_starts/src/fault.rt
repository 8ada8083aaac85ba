// Why possible starts aren't listed.

ghost use Rattle.std.specs.Prelude.{◌≡◌};
ghost use Rattle.snapshot_starts.specs.declared.fault.StartFault.TheVariants.{NoMemory};

use std::alloc::{AllocError, AllocFailed};
use thiserror::Error;

/// Why possible starts aren't listed.
#[derive(Clone, Copy, Debug, Error)]
pub enum StartFault {
    /// There are more than [`plan_base::MOST_STARTS`]; the count is exact.
    #[error("{count} possible starts are too many")]
    TooManyStarts { count: u64 },
    /// Memory ran out.
    #[error("out of memory")]
    NoMemory,
}

impl From<AllocError> for StartFault {
    ghost from_gives = { λ _ fault. fault ≡ NoMemory };

    fn from(_error: AllocError) -> StartFault {
        StartFault::NoMemory
    }
}

impl<T: Drop> From<AllocFailed<T>> for StartFault {
    ghost from_gives = { λ _ fault. fault ≡ NoMemory };

    fn from(_error: AllocFailed<T>) -> StartFault {
        StartFault::NoMemory
    }
}
