// What is worked out of each placement of a plan before the starts of a new request are looked at.

ghost use Rattle.std.specs.Prelude.{◌≡◌, ◌≤◌, map, length, All, IfOk};
ghost use Rattle.plan_base.specs.Limits.{most_seconds, most_value};
ghost use Rattle.plan_base.specs.Requests.{IsKnown};
ghost use Rattle.bound_checker.specs.Claims.{IsEachKnown};
ghost use Rattle.rapid.specs.Held.{and_at, is_same_quota, counted_of, held_of, HasPlaceBelow};

use crate::known::{op_at, slice_after, worth_of};
use bound_checker::{known_group, known_quota, request_of};
use plan_base::{Op, Placement, RequestNo, Snapshot};
use std::alloc::{AllocError, Global};

/// A placement, with what is asked of it again and again.
#[derive(Clone, Copy)]
pub(crate) struct Held {
    /// The placement itself.
    pub placement: Placement,
    /// The slice after its last.
    pub after: u64,
    /// The place of its group, where that is an `AND`.
    pub and_place: Option<usize>,
    /// What it is worth.
    pub worth: u64,
    /// Its seconds, where they count towards the quota that is looked at, else 0.
    pub counted: u64,
}

/// The place of a group of this kind, where it is an `AND`.
fn and_at(op: Op, group: usize) -> Option<usize>
    ensures { result ≡ and_at op group }
{
    match op {
        Op::And => Some(group),
        Op::Single | Op::Many | Op::OneOf => None,
    }
}

/// Whether the quota is named on both sides.
fn is_same_quota(quota: Option<u16>, other: Option<u16>) -> bool
    ensures { result ≡ is_same_quota quota other }
{
    match (quota, other) {
        (Some(quota), Some(other)) => other == quota,
        _ => false,
    }
}

/// The seconds of the request, where they count towards the quota.
fn counted_of(snapshot: &Snapshot, quota: Option<u16>, request: RequestNo) -> u64
    requires { IsKnown snapshot.now request.0 }
    ensures value { result ≡ counted_of snapshot.now quota request.0 }
    ensures most { result ≤ most_seconds }
{
    let seconds = request_of(snapshot, request).seconds;
    if is_same_quota(quota, known_quota(snapshot, request)) {
        u64::from(seconds)
    } else {
        0
    }
}

/// What is worked out of a placement of a request that the snapshot has, where this quota is looked at.
pub(crate) fn held_of(snapshot: &Snapshot, quota: Option<u16>, placement: Placement) -> Held
    requires { IsKnown snapshot.now placement.request.0 }
    ensures value { result ≡ held_of snapshot.now quota placement }
    ensures place { HasPlaceBelow (length snapshot.now.groups) result }
    ensures worth { result.worth ≤ most_value }
    ensures counted { result.counted ≤ most_seconds }
{
    let request = request_of(snapshot, placement.request);
    let group = known_group(snapshot, placement.request);
    Held {
        placement,
        after: slice_after(snapshot, request, placement.slice),
        and_place: and_at(op_at(snapshot, group), group),
        worth: worth_of(snapshot, request, placement.slice),
        counted: counted_of(snapshot, quota, placement.request),
    }
}

/// What is worked out of each placement of a plan. Fails only for want of memory.
pub(crate) fn held_plan(
    alloc: Global,
    snapshot: &Snapshot,
    quota: Option<u16>,
    plan: &[Placement],
) -> Result<Vec<Held>, AllocError>
    requires { IsEachKnown snapshot.now plan.now }
    ensures value { IfOk result (λ held. held.items ≡ map (held_of snapshot.now quota) plan.now) }
    ensures places { IfOk result (λ held. All (HasPlaceBelow (length snapshot.now.groups)) held.items) }
    ensures worths { IfOk result (λ held. All (λ h. h.worth ≤ most_value) held.items) }
    ensures counts { IfOk result (λ held. All (λ h. h.counted ≤ most_seconds) held.items) }
{
    let mut held = Vec::with_capacity(alloc, plan.len())?;
    for placement in plan {
        held.push(held_of(snapshot, quota, *placement))?;
    }
    Ok(held)
}
