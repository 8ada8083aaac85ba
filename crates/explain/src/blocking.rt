// The placements of a claim that stand in the way of a request.

ghost use Rattle.std.specs.Prelude.{◌≡◌, ◌↔◌, ℤ, List, IfOk, IsTrue};
ghost use Rattle.plan_base.specs.Requests.{IsKnown};
ghost use Rattle.plan_base.specs.Starts.{IsPossibleStart, size_of};
ghost use Rattle.plan_base.specs.Feasible.{IsEachPossible};
ghost use Rattle.explain.specs.Left.{AreKept, Blocks};
ghost use Rattle.openings.specs.Openings.{AreOpenings, HasFlagWithin};

use crate::answer::Blocking;
use bound_checker::request_of;
use openings::Openings;
use plan_base::{ListOf, Placement, RequestNo, Snapshot, slices_for};
use std::alloc::{AllocError, Global};

/// The placements of a plan that share a slice with a possible start of a request. Fails only for want of memory.
pub(crate) fn blocking_of(
    alloc: Global,
    snapshot: &Snapshot,
    plan: &[Placement],
    openings: &Openings,
) -> Result<Blocking, AllocError>
    requires plan { IsEachPossible snapshot.now plan.now }
    requires openings { (prices : List ℤ) × AreOpenings snapshot.now prices openings.now }
    ensures { IfOk result (λ blocking. AreKept (Blocks snapshot.now openings.now.request.0) plan.now blocking) }
{
    let mut placements = Vec::new(alloc);
    for placement in plan {
        if blocks(snapshot, *placement, openings) {
            placements.push(*placement)?;
        }
    }
    Ok(Blocking {
        placements: ListOf::from_vec(placements),
    })
}

/// Whether a placement shares a slice with a possible start of a request.
fn blocks(snapshot: &Snapshot, placement: Placement, openings: &Openings) -> bool
    requires placement { IsPossibleStart snapshot.now placement }
    requires openings { (prices : List ℤ) × AreOpenings snapshot.now prices openings.now }
    ensures { IsTrue result ↔ Blocks snapshot.now openings.now.request.0 placement }
{
    snapshot.recall_valid();
    let flags = openings.rows[usize::from(placement.telescope.0)].as_slice();
    if flags.is_empty() {
        return false;
    }
    let slice = u64::from(placement.slice.0 - snapshot.parts().first.0);
    let from = (slice + 1).saturating_sub(openings.offer.size);
    let taken = size_at(snapshot, placement.request);
    has_flag_within(flags, from as usize, (slice + taken) as usize)
}

/// How many slices a request takes.
fn size_at(snapshot: &Snapshot, request: RequestNo) -> u64
    requires { IsKnown snapshot.now request.0 }
    ensures { result ≡ size_of snapshot.now request.0 }
{
    snapshot.recall_valid();
    let seconds = request_of(snapshot, request).seconds;
    slices_for(u64::from(snapshot.parts().len), u64::from(seconds))
}

/// Whether one of the flags from one place to the one before another is set. A flag that is lacking isn't set.
fn has_flag_within(flags: &[bool], from: usize, to: usize) -> bool
    ensures { IsTrue result ↔ HasFlagWithin flags.now from to }
{
    for place in from..to.min(flags.len()) {
        if flags[place] {
            return true;
        }
    }
    false
}
