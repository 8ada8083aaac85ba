// Why a document isn't a request group.

use plan_base::Op;
use plan_json::JsonFault;
use std::alloc::{AllocError, AllocFailed};
use thiserror::Error;

/// The first thing, in the order of reading, for which a document isn't a request group. Places count from 0.
#[derive(Clone, Copy, Debug, Error)]
pub enum GroupFault {
    /// A member isn't what the document asks for.
    #[error("{0}")]
    Json(JsonFault),
    /// The group has so many requests, other than 1 for `SINGLE` or 2 to 32 for the other operators.
    #[error("{count} requests are no {operator:?}")]
    BadShape { operator: Op, count: u32 },
    /// This window of this request has no second.
    #[error("window {window} of request {index} has no second")]
    BadWindow { index: u32, window: u32 },
    /// The configurations of this request have several instrument types.
    #[error("request {index} mixes instrument types")]
    MixedInstruments { index: u32 },
    /// Memory ran out.
    #[error("out of memory")]
    NoMemory,
}

impl From<JsonFault> for GroupFault {
    ghost use Rattle.std.specs.Prelude.{◌≡◌};
    ghost use Rattle.request_model.specs.Fault.{fault_of};

    ghost from_gives = { λ member fault. fault ≡ fault_of member };

    fn from(fault: JsonFault) -> GroupFault {
        match fault {
            JsonFault::NoMemory => GroupFault::NoMemory,
            _ => GroupFault::Json(fault),
        }
    }
}

impl From<AllocError> for GroupFault {
    ghost use Rattle.std.specs.Prelude.{◌≡◌};
    ghost use Rattle.request_model.specs.declared.fault.GroupFault.TheVariants.{NoMemory};

    ghost from_gives = { λ _ fault. fault ≡ NoMemory };

    fn from(_refused: AllocError) -> GroupFault {
        GroupFault::NoMemory
    }
}

impl<T: Drop> From<AllocFailed<T>> for GroupFault {
    ghost use Rattle.std.specs.Prelude.{◌≡◌};
    ghost use Rattle.request_model.specs.declared.fault.GroupFault.TheVariants.{NoMemory};

    ghost from_gives = { λ _ fault. fault ≡ NoMemory };

    fn from(_refused: AllocFailed<T>) -> GroupFault {
        GroupFault::NoMemory
    }
}
