// What a check without trees tells of a check with them.

ghost use Rattle.std.specs.Prelude.{◌≡◌};
ghost use Rattle.group_trees.specs.Turned.{turned, turned_reason};

use crate::verdict::ForestReason;
use plan_base::{Reason, Verdict};

/// A verdict without trees, as a check with trees takes it.
#[derive(Clone, Copy)]
pub(crate) enum Turned {
    /// The placements one by one and two by two are wrong: that comes before the trees.
    Placed(ForestReason),
    /// The placements are right, and the prices or the value are wrong: that comes after the trees.
    Priced(ForestReason),
    /// All but the trees and the bound is right. The prices give this bound where each group stands alone.
    Bounded(u64),
    /// A reason that no snapshot of a forest gives.
    Other,
}

/// The verdict as a check with trees takes it.
pub(crate) fn turn(verdict: Verdict) -> Turned
    ensures { result ≡ turned verdict }
{
    match verdict {
        Verdict::Yes { bound, .. } => Turned::Bounded(bound),
        Verdict::No(reason) => turn_reason(reason),
    }
}

fn turn_reason(reason: Reason) -> Turned
    ensures { result ≡ turned_reason reason }
{
    match reason {
        Reason::UnknownRequest { index } => Turned::Placed(ForestReason::UnknownRequest { index }),
        Reason::PlacedTwice { index } => Turned::Placed(ForestReason::PlacedTwice { index }),
        Reason::NotPossible { index } => Turned::Placed(ForestReason::NotPossible { index }),
        Reason::Overlap { index } => Turned::Placed(ForestReason::Overlap { index }),
        Reason::PriceCount { given, wanted } => {
            Turned::Priced(ForestReason::PriceCount { given, wanted })
        }
        Reason::PriceRange { index } => Turned::Priced(ForestReason::PriceRange { index }),
        Reason::QuotaPriceCount { given, wanted } => {
            Turned::Priced(ForestReason::QuotaPriceCount { given, wanted })
        }
        Reason::ValueDiffers { claimed, found } => {
            Turned::Priced(ForestReason::ValueDiffers { claimed, found })
        }
        Reason::BoundDiffers { found, .. } => Turned::Bounded(found),
        Reason::OneofTwice { .. }
        | Reason::AndPartial { .. }
        | Reason::QuotaOver { .. }
        | Reason::QuotaPriceRange { .. } => Turned::Other,
    }
}
