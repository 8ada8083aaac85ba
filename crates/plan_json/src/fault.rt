// Why a document isn't what was asked for.

use crate::member::Member;
use std::alloc::{AllocError, AllocFailed};
use thiserror::Error;

/// Why a document, or a member of it, isn't what was asked for.
#[derive(Clone, Copy, Debug, PartialEq, Eq, Error)]
pub enum JsonFault {
    /// The bytes aren't the UTF-8 of one JSON text (RFC 8259) as the crate `serde_json` reads it, with at most 127 levels and no
    /// number that is too great for a float.
    #[error("not JSON")]
    NotJson,
    /// The text isn't an object.
    #[error("not an object")]
    NotObject,
    /// The member isn't there, or it is `null`.
    #[error("the member `{member}` is missing")]
    Missing { member: Member },
    /// The member, or an element of it, is of another kind.
    #[error("the member `{member}` is of another kind")]
    WrongKind { member: Member },
    /// A number isn't whole: it has a fraction or an exponent, is `-0`, or doesn't fit 64 bits.
    #[error("the member `{member}` isn't a whole number")]
    NotWhole { member: Member },
    /// A number, a text's length, a list's count or a span is outside its range, or a text isn't one of the words that may
    /// stand there.
    #[error("the member `{member}` is out of range")]
    OutOfRange { member: Member },
    /// A text names no moment.
    #[error("the member `{member}` names no moment")]
    BadMoment { member: Member },
    /// Memory ran out.
    #[error("out of memory")]
    NoMemory,
}

impl From<AllocError> for JsonFault {
    ghost use Rattle.std.specs.Prelude.{◌≡◌};
    ghost use Rattle.plan_json.specs.declared.fault.JsonFault.TheVariants.{NoMemory};

    ghost from_gives = { λ _ fault. fault ≡ NoMemory };

    fn from(_refused: AllocError) -> JsonFault {
        JsonFault::NoMemory
    }
}

impl<T: Drop> From<AllocFailed<T>> for JsonFault {
    ghost use Rattle.std.specs.Prelude.{◌≡◌};
    ghost use Rattle.plan_json.specs.declared.fault.JsonFault.TheVariants.{NoMemory};

    ghost from_gives = { λ _ fault. fault ≡ NoMemory };

    fn from(_refused: AllocFailed<T>) -> JsonFault {
        JsonFault::NoMemory
    }
}
