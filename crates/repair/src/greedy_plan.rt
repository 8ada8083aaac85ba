// The greedy plan.

ghost use Rattle.std.specs.Prelude.{IfOk};
ghost use Rattle.plan_base.specs.Feasible.{IsFeasible};
ghost use Rattle.plan_base.specs.Saturated.{IsSaturated};
ghost use Rattle.plan_base.specs.Fill.{IsGreedy};
ghost use Rattle.snapshot_starts.specs.Runs.{AreAllStarts};

use crate::draft::Draft;
use crate::fill::fill;
use crate::trials::Trials;
use plan_base::{Placement, Snapshot, empty_is_feasible, filled_is_saturated};
use snapshot_starts::Starts;
use std::alloc::{AllocError, Global};

/// The greedy plan: the empty plan, filled. The starts are all possible starts of the snapshot. The placements are in
/// the order in which they were added. Fails only for want of memory.
pub fn greedy(
    alloc: Global,
    snapshot: &Snapshot,
    starts: &Starts,
) -> Result<Vec<Placement>, AllocError>
    requires { AreAllStarts snapshot.now starts.now }
    ensures greedy { IfOk result (λ plan. IsGreedy snapshot.now plan.items) }
    ensures feasible { IfOk result (λ plan. IsFeasible snapshot.now plan.items) }
    ensures saturated { IfOk result (λ plan. IsSaturated snapshot.now plan.items) }
{
    let trials = Trials::new(alloc, snapshot, starts)?;
    let mut draft = Draft::new(alloc, snapshot)?;
    fill(&mut draft, &trials);
    empty_is_feasible(snapshot);
    filled_is_saturated(snapshot);
    Vec::from_slice(alloc, draft.placed())
}
