// Whether the requests of a plan are known, and each placed once.

ghost use Rattle.std.specs.Prelude.{◌≡◌, ◌<◌, IsTrue, MatchOption, IfOk, length, ◌↔◌};
ghost use Rattle.plan_base.specs.Requests.{group_of, IsKnown};
ghost use Rattle.plan_base.specs.Feasible.{IsEachOnce};
ghost use Rattle.plan_base.specs.Verdict.{IsFirst, IsUnknownAt, HasEarlier};
ghost use Rattle.bound_checker.specs.Claims.{IsEachKnown, IsRequestOf, IsRequestInRanges};

use plan_base::{Placement, RequestNo, RequestPart, Snapshot, repeated};
use std::alloc::{AllocError, Global};

/// The first placement of a request that the snapshot doesn't have.
pub(crate) fn first_unknown(snapshot: &Snapshot, plan: &[Placement]) -> Option<usize>
    ensures { MatchOption result (IsEachKnown snapshot.now plan.now) (IsFirst (IsUnknownAt snapshot.now plan.now)) }
{
    for (index, placement) in plan.iter().enumerate() {
        if !is_known(snapshot, placement.request) {
            return Some(index);
        }
    }
    None
}

fn is_known(snapshot: &Snapshot, request: RequestNo) -> bool
    ensures { IsTrue result ↔ IsKnown snapshot.now request.0 }
{
    snapshot.place_of(request).is_some()
}

/// The first placement whose request was placed before it. Fails only for want of memory.
pub(crate) fn first_twice(
    alloc: Global,
    snapshot: &Snapshot,
    plan: &[Placement],
) -> Result<Option<usize>, AllocError>
    requires { IsEachKnown snapshot.now plan.now }
    ensures { IfOk result (λ first. MatchOption first (IsEachOnce plan.now) (IsFirst (HasEarlier (λ p q. p.request ≡ q.request) plan.now))) }
{
    let mut placed = repeated(alloc, false, snapshot.request_count())?;
    for (index, placement) in plan.iter().enumerate() {
        let place = snapshot.known_place(placement.request);
        if placed[place] {
            return Ok(Some(index));
        }
        placed[place] = true;
    }
    Ok(None)
}

/// The place of the group of a request that the snapshot has.
pub fn known_group(snapshot: &Snapshot, request: RequestNo) -> usize
    requires { IsKnown snapshot.now request.0 }
    ensures value { result ≡ group_of snapshot.now request.0 }
    ensures within { result < length snapshot.now.groups }
{
    snapshot.group_at(snapshot.known_place(request))
}

/// A request that the snapshot has.
pub fn request_of(snapshot: &Snapshot, request: RequestNo) -> &RequestPart
    requires { IsKnown snapshot.now request.0 }
    ensures is { IsRequestOf snapshot.now request.0 result.now }
    ensures ranges { IsRequestInRanges (length snapshot.now.telescopes) result.now }
{
    snapshot.recall_valid();
    snapshot.request_at(snapshot.known_place(request))
}
