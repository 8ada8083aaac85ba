// Why a command isn't done.

use crate::refusal::Refusal;
use std::alloc::{AllocError, AllocFailed};

/// Why a command isn't read, or isn't done.
#[derive(Clone, Copy)]
pub enum CommandFault {
    /// The line is refused; the reply says why.
    Refused(Refusal),
    /// Memory ran out.
    NoMemory,
}

impl From<Refusal> for CommandFault {
    ghost use Rattle.std.specs.Prelude.{◌≡◌};
    ghost use Rattle.desk_events.specs.declared.fault.CommandFault.TheVariants.{Refused};

    ghost from_gives = { λ refusal fault. fault ≡ Refused refusal };

    fn from(refusal: Refusal) -> CommandFault {
        CommandFault::Refused(refusal)
    }
}

impl From<AllocError> for CommandFault {
    ghost use Rattle.std.specs.Prelude.{◌≡◌};
    ghost use Rattle.desk_events.specs.declared.fault.CommandFault.TheVariants.{NoMemory};

    ghost from_gives = { λ _ fault. fault ≡ NoMemory };

    fn from(_refused: AllocError) -> CommandFault {
        CommandFault::NoMemory
    }
}

impl<T: Drop> From<AllocFailed<T>> for CommandFault {
    ghost use Rattle.std.specs.Prelude.{◌≡◌};
    ghost use Rattle.desk_events.specs.declared.fault.CommandFault.TheVariants.{NoMemory};

    ghost from_gives = { λ _ fault. fault ≡ NoMemory };

    fn from(_refused: AllocFailed<T>) -> CommandFault {
        CommandFault::NoMemory
    }
}
