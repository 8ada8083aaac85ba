// Why a document isn't a snapshot with a forest and a claim.

use crate::fault::ForestFault;
use plan_doc::DocFault;
use plan_json::JsonFault;
use std::alloc::AllocError;
use thiserror::Error;

/// The first thing, in the order of reading, for which a document isn't a snapshot with a forest and a claim.
#[derive(Clone, Copy, Debug, Error)]
pub(crate) enum AskFault {
    /// The document isn't JSON, or what it has isn't a snapshot, trees or a claim.
    #[error("{0}")]
    Document(DocFault),
    /// The trees aren't a forest of the snapshot.
    #[error("{0}")]
    Forest(ForestFault),
    /// Memory ran out.
    #[error("out of memory")]
    NoMemory,
}

impl From<DocFault> for AskFault {
    ghost use Rattle.std.specs.Prelude.{◌≡◌};
    ghost use Rattle.group_trees.specs.AskFaults.{ask_of_document};

    ghost from_gives = { λ document fault. fault ≡ ask_of_document document };

    fn from(fault: DocFault) -> AskFault {
        match fault {
            DocFault::NoMemory => AskFault::NoMemory,
            _ => AskFault::Document(fault),
        }
    }
}

impl From<JsonFault> for AskFault {
    ghost use Rattle.std.specs.Prelude.{◌≡◌};
    ghost use Rattle.plan_doc.specs.Fault.{fault_of_json};
    ghost use Rattle.group_trees.specs.AskFaults.{ask_of_document};

    ghost from_gives = { λ member fault. fault ≡ ask_of_document (fault_of_json member) };

    fn from(fault: JsonFault) -> AskFault {
        AskFault::from(DocFault::from(fault))
    }
}

impl From<ForestFault> for AskFault {
    ghost use Rattle.std.specs.Prelude.{◌≡◌};
    ghost use Rattle.group_trees.specs.AskFaults.{ask_of_forest};

    ghost from_gives = { λ trees fault. fault ≡ ask_of_forest trees };

    fn from(fault: ForestFault) -> AskFault {
        match fault {
            ForestFault::NoMemory => AskFault::NoMemory,
            _ => AskFault::Forest(fault),
        }
    }
}

impl From<AllocError> for AskFault {
    ghost use Rattle.std.specs.Prelude.{◌≡◌};
    ghost use Rattle.group_trees.specs.declared.asked.AskFault.TheVariants.{NoMemory};

    ghost from_gives = { λ _ fault. fault ≡ NoMemory };

    fn from(_refused: AllocError) -> AskFault {
        AskFault::NoMemory
    }
}
