// Why a group can't be inserted.

use plan_base::{GroupNo, SnapshotFault};
use std::alloc::AllocError;
use thiserror::Error;

/// The first thing for which a group isn't inserted.
#[derive(Clone, Copy, Debug, Error)]
pub enum RapidFault {
    /// The group isn't a `SINGLE`.
    #[error("group {} isn't a SINGLE", group.0)]
    NotSingle { group: GroupNo },
    /// The snapshot with the group at its end isn't one.
    #[error("{0}")]
    Snapshot(SnapshotFault),
    /// There is no memory left.
    #[error("out of memory")]
    NoMemory,
}

impl From<SnapshotFault> for RapidFault {
    ghost use Rattle.std.specs.Prelude.{◌≡◌};
    ghost use Rattle.rapid.specs.Faults.{fault_of_snapshot};

    ghost from_gives = { λ parts fault. fault ≡ fault_of_snapshot parts };

    fn from(fault: SnapshotFault) -> RapidFault {
        match fault {
            SnapshotFault::NoMemory => RapidFault::NoMemory,
            _ => RapidFault::Snapshot(fault),
        }
    }
}

impl From<AllocError> for RapidFault {
    ghost use Rattle.std.specs.Prelude.{◌≡◌};
    ghost use Rattle.rapid.specs.declared.fault.RapidFault.TheVariants.{NoMemory};

    ghost from_gives = { λ _ fault. fault ≡ NoMemory };

    fn from(_refused: AllocError) -> RapidFault {
        RapidFault::NoMemory
    }
}
