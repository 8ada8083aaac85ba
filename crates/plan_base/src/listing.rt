// The placements of a plan in the order in which a claim has them.

ghost use Rattle.std.specs.List.Sorted.{IsSortedBy, IsPermutation};
ghost use Rattle.plan_base.specs.Repaired.{is_listed_before};

use crate::claim::Placement;
use crate::list::ListOf;

/// The placements by telescope, then slice.
pub fn listing_of(mut plan: Vec<Placement>) -> ListOf<Placement>
    ensures same { IsPermutation plan.items result }
    ensures rising { IsSortedBy is_listed_before result }
{
    plan.sort_unstable_by_key(|placement| (placement.telescope.0, placement.slice.0));
    ListOf::from_vec(plan)
}
