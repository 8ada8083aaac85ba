// Why a document isn't a snapshot, or not one with a claim.

use plan_base::SnapshotFault;
use plan_json::JsonFault;
use std::alloc::{AllocError, AllocFailed};
use thiserror::Error;

/// The first thing, in the order of reading, for which a document isn't what was asked for.
#[derive(Clone, Copy, Debug, Error)]
pub enum DocFault {
    /// The document isn't JSON, or a member isn't what the document asks for.
    #[error("{0}")]
    Json(JsonFault),
    /// The parts that were read aren't a snapshot.
    #[error("{0}")]
    Snapshot(SnapshotFault),
    /// Memory ran out.
    #[error("out of memory")]
    NoMemory,
}

impl From<JsonFault> for DocFault {
    ghost use Rattle.std.specs.Prelude.{◌≡◌};
    ghost use Rattle.plan_doc.specs.Fault.{fault_of_json};

    ghost from_gives = { λ member fault. fault ≡ fault_of_json member };

    fn from(fault: JsonFault) -> DocFault {
        match fault {
            JsonFault::NoMemory => DocFault::NoMemory,
            _ => DocFault::Json(fault),
        }
    }
}

impl From<SnapshotFault> for DocFault {
    ghost use Rattle.std.specs.Prelude.{◌≡◌};
    ghost use Rattle.plan_doc.specs.Fault.{fault_of_snapshot};

    ghost from_gives = { λ parts fault. fault ≡ fault_of_snapshot parts };

    fn from(fault: SnapshotFault) -> DocFault {
        match fault {
            SnapshotFault::NoMemory => DocFault::NoMemory,
            _ => DocFault::Snapshot(fault),
        }
    }
}

impl From<AllocError> for DocFault {
    ghost use Rattle.std.specs.Prelude.{◌≡◌};
    ghost use Rattle.plan_doc.specs.declared.fault.DocFault.TheVariants.{NoMemory};

    ghost from_gives = { λ _ fault. fault ≡ NoMemory };

    fn from(_refused: AllocError) -> DocFault {
        DocFault::NoMemory
    }
}

impl<T: Drop> From<AllocFailed<T>> for DocFault {
    ghost use Rattle.std.specs.Prelude.{◌≡◌};
    ghost use Rattle.plan_doc.specs.declared.fault.DocFault.TheVariants.{NoMemory};

    ghost from_gives = { λ _ fault. fault ≡ NoMemory };

    fn from(_refused: AllocFailed<T>) -> DocFault {
        DocFault::NoMemory
    }
}
