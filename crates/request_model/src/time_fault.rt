// Why a request has no duration or no windows.

use std::alloc::{AllocError, AllocFailed};
use thiserror::Error;

/// Why a request has no duration, or a cadence no windows.
#[derive(Clone, Copy, Debug, Error)]
pub enum TimeFault {
    /// The request takes more than a day of 86,400 seconds.
    #[error("the request takes {seconds} seconds, more than a day")]
    TooLong { seconds: u64 },
    /// The period or the jitter is 0, the start isn't before the end, or no window is as long as the request.
    #[error("the cadence has no windows")]
    BadCadence,
    /// The cadence has more than 256 centres.
    #[error("the cadence has {count} centres, more than 256")]
    TooManyWindows { count: u64 },
    /// Memory ran out.
    #[error("out of memory")]
    NoMemory,
}

impl From<AllocError> for TimeFault {
    ghost use Rattle.std.specs.Prelude.{◌≡◌};
    ghost use Rattle.request_model.specs.declared.time_fault.TimeFault.TheVariants.{NoMemory};

    ghost from_gives = { λ _ fault. fault ≡ NoMemory };

    fn from(_refused: AllocError) -> TimeFault {
        TimeFault::NoMemory
    }
}

impl<T: Drop> From<AllocFailed<T>> for TimeFault {
    ghost use Rattle.std.specs.Prelude.{◌≡◌};
    ghost use Rattle.request_model.specs.declared.time_fault.TimeFault.TheVariants.{NoMemory};

    ghost from_gives = { λ _ fault. fault ≡ NoMemory };

    fn from(_refused: AllocFailed<T>) -> TimeFault {
        TimeFault::NoMemory
    }
}
