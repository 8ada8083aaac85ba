// The place of a new request in a plan.

ghost use Rattle.std.specs.Prelude.{◌≡◌, map, IfOk, IsPermutation};
ghost use Rattle.std.specs.List.Sorted.{IsSortedBy};
ghost use Rattle.plan_base.specs.Feasible.{requests_of, IsEachOnce};
ghost use Rattle.plan_base.specs.Repaired.{is_listed_before};
ghost use Rattle.rapid.specs.Insertion.{AreRising, HasNoPlace};
ghost use Rattle.rapid.specs.Found.{IsEarliestFound};
ghost use Rattle.rapid.specs.Held.{plan_of};
ghost use Rattle.rapid.specs.Stage.{IsStage};
ghost use Rattle.rapid.specs.Placing.{IsReady, IsPlacedSo};

use crate::held::{Held, held_plan};
use crate::inserted::Inserted;
use crate::seeking::{Found, earliest};
use bound_checker::known_quota;
use plan_base::{ListOf, Placement, RequestNo, Snapshot, listing_of};
use std::alloc::{AllocError, Global};

/// A plan with a new request in it, if that has a place.
#[derive(Drop)]
pub(crate) struct Placing {
    /// Where the new request is placed.
    pub inserted: Inserted,
    /// By telescope, then slice.
    pub placements: ListOf<Placement>,
    /// In rising order.
    pub displaced: ListOf<RequestNo>,
    /// What the plan is worth more than before.
    pub gain: u64,
}

/// The requests of a plan that places each once, in rising order. Fails only for want of memory.
fn rising_requests(alloc: Global, plan: &[Placement]) -> Result<ListOf<RequestNo>, AllocError>
    requires { IsEachOnce plan.now }
    ensures { IfOk result (λ requests. AreRising (requests_of plan.now) requests) }
{
    let mut requests = requests_of(alloc, plan)?;
    requests.sort_unstable_by_key(|request| request.0);
    Ok(ListOf::from_vec(requests))
}

/// The requests of a plan, in its order. Fails only for want of memory.
fn requests_of(alloc: Global, plan: &[Placement]) -> Result<Vec<RequestNo>, AllocError>
    ensures { IfOk result (λ requests. requests.items ≡ map (λ p. p.request) plan.now) }
{
    plan.iter().map(|p| p.request).collect(alloc)
}

/// The same plan by telescope, then slice. Fails only for want of memory.
fn listing(alloc: Global, plan: &[Placement]) -> Result<ListOf<Placement>, AllocError>
    ensures same { IfOk result (λ listing. IsPermutation plan.now listing) }
    ensures rising { IfOk result (λ listing. IsSortedBy is_listed_before listing) }
{
    Ok(listing_of(Vec::from_slice(alloc, plan)?))
}

/// The plan with the start that was found in it. Fails only for want of memory.
fn with_start(
    alloc: Global,
    snapshot: &Snapshot,
    held: &[Held],
    request: RequestNo,
    found: Found,
) -> Result<Placing, AllocError>
    requires stage { IsStage snapshot.now request.0 held.now }
    requires earliest { IsEarliestFound snapshot.now held.now request.0 found }
    ensures { IfOk result (IsPlacedSo snapshot.now (plan_of held.now) request.0) }
{
    snapshot.recall_valid();
    let Found {
        start,
        gone,
        kept: mut plan,
        gain,
    } = found;
    let displaced = rising_requests(alloc, gone.as_slice())?;
    plan.push(start)?;
    Ok(Placing {
        inserted: Inserted::Placed(start),
        placements: listing_of(plan),
        displaced,
        gain,
    })
}

/// The plan as it was. Fails only for want of memory.
fn without_start(
    alloc: Global,
    snapshot: &Snapshot,
    plan: &[Placement],
    request: RequestNo,
) -> Result<Placing, AllocError>
    requires ready { IsReady snapshot.now plan.now request.0 }
    requires none { HasNoPlace snapshot.now plan.now request.0 }
    ensures { IfOk result (IsPlacedSo snapshot.now plan.now request.0) }
{
    snapshot.recall_valid();
    Ok(Placing {
        inserted: Inserted::NoPlace,
        placements: listing(alloc, plan)?,
        displaced: ListOf::new(alloc),
        gain: 0,
    })
}

/// The plan with the request at its earliest start that qualifies, if one does. Fails only for want of memory.
pub(crate) fn place(
    alloc: Global,
    snapshot: &Snapshot,
    plan: &[Placement],
    request: RequestNo,
) -> Result<Placing, AllocError>
    requires { IsReady snapshot.now plan.now request.0 }
    ensures { IfOk result (IsPlacedSo snapshot.now plan.now request.0) }
{
    snapshot.recall_valid();
    let held = held_plan(alloc, snapshot, known_quota(snapshot, request), plan)?;
    match earliest(alloc, snapshot, held.as_slice(), request)? {
        Some(found) => with_start(alloc, snapshot, held.as_slice(), request, found),
        None => without_start(alloc, snapshot, plan, request),
    }
}
