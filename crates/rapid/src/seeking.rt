// The earliest start of a request that qualifies.

ghost use Rattle.std.specs.Prelude.{◌≡◌, ◌≤◌, ◌<◌, ◌↔◌, IsTrue, ℕ, length, MatchOption, IfOk, Some};
ghost use Rattle.plan_base.specs.Feasible.{quota_at};
ghost use Rattle.rapid.specs.Displaced.{Qualifies};
ghost use Rattle.rapid.specs.Held.{plan_of};
ghost use Rattle.rapid.specs.Stage.{IsStage};
ghost use Rattle.rapid.specs.Found.{IsFound, IsFirstAt, IsSought};

use crate::held::{Held, held_of};
use crate::striking::{counted_kept, gone, kept, strike_ands, worth_gone};
use bound_checker::{known_quota, request_of};
use plan_base::{Placement, RequestNo, SliceNo, Snapshot, repeated};
use snapshot_starts::is_possible;
use std::alloc::{AllocError, Global};

/// A start that qualifies.
#[derive(Drop)]
pub(crate) struct Found {
    /// The start itself.
    pub start: Placement,
    /// What has to go for it.
    pub gone: Vec<Placement>,
    /// What can stay.
    pub kept: Vec<Placement>,
    /// What it is worth beyond what has to go.
    pub gain: u64,
}

/// Whether so many seconds are within the quota, if there is one.
fn is_within(snapshot: &Snapshot, quota: Option<u16>, seconds: u64) -> bool
    requires { (q : ℕ) → quota ≡ Some q → q < length snapshot.now.quotas }
    ensures { IsTrue result ↔ ((q : ℕ) → quota ≡ Some q → seconds ≤ quota_at snapshot.now q) }
{
    match quota {
        Some(place) => seconds <= snapshot.parts().quotas.as_slice()[usize::from(place)],
        None => true,
    }
}

/// The start, where it qualifies. There is a flag for each group, to write into. Fails only for want of memory.
fn qualify(
    alloc: Global,
    snapshot: &Snapshot,
    held: &[Held],
    start: Placement,
    flags: &mut [bool],
) -> Result<Option<Found>, AllocError>
    requires stage { IsStage snapshot.now start.request.0 held.now }
    requires flags { length flags.old ≡ length snapshot.now.groups }
    ensures { IfOk result (λ found. MatchOption found (¬ (Qualifies snapshot.now (plan_of held.now) start)) (IsFound snapshot.now held.now start)) }
{
    snapshot.recall_valid();
    if !is_possible(snapshot, start) {
        return Ok(None);
    }
    let quota = known_quota(snapshot, start.request);
    let new = held_of(snapshot, quota, start);
    strike_ands(&new, held, flags);
    let lost = worth_gone(flags, &new, held);
    let counted = counted_kept(flags, &new, held) + new.counted;
    if lost >= new.worth {
        return Ok(None);
    }
    if !is_within(snapshot, quota, counted) {
        return Ok(None);
    }
    Ok(Some(Found {
        start,
        gone: gone(alloc, flags, &new, held)?,
        kept: kept(alloc, flags, &new, held)?,
        gain: new.worth - lost,
    }))
}

/// The first start at the slice that qualifies, by these telescopes. Fails only for want of memory.
fn first_at(
    alloc: Global,
    snapshot: &Snapshot,
    held: &[Held],
    request: RequestNo,
    slice: SliceNo,
    flags: &mut [bool],
) -> Result<Option<Found>, AllocError>
    requires stage { IsStage snapshot.now request.0 held.now }
    requires flags { length flags.old ≡ length snapshot.now.groups }
    ensures { IfOk result (IsFirstAt snapshot.now held.now request slice) }
{
    snapshot.recall_valid();
    let telescopes = request_of(snapshot, request).telescopes.as_slice();
    for telescope in telescopes {
        let start = Placement {
            request,
            telescope: *telescope,
            slice,
        };
        if let Some(found) = qualify(alloc, snapshot, held, start, flags)? {
            return Ok(Some(found));
        }
    }
    Ok(None)
}

/// The earliest start of the request that qualifies, on the lowest telescope among equals. Fails only for want of memory.
pub(crate) fn earliest(
    alloc: Global,
    snapshot: &Snapshot,
    held: &[Held],
    request: RequestNo,
) -> Result<Option<Found>, AllocError>
    requires { IsStage snapshot.now request.0 held.now }
    ensures { IfOk result (IsSought snapshot.now held.now request.0) }
{
    let mut flags = repeated(alloc, false, snapshot.parts().groups.len())?;
    earliest_by(alloc, snapshot, held, request, flags.as_mut_slice())
}

/// The same, with a flag for each group to write into.
fn earliest_by(
    alloc: Global,
    snapshot: &Snapshot,
    held: &[Held],
    request: RequestNo,
    flags: &mut [bool],
) -> Result<Option<Found>, AllocError>
    requires stage { IsStage snapshot.now request.0 held.now }
    requires flags { length flags.old ≡ length snapshot.now.groups }
    ensures { IfOk result (IsSought snapshot.now held.now request.0) }
{
    snapshot.recall_valid();
    let first = snapshot.parts().first.0;
    let end = first + snapshot.parts().slices;
    for slice in first..end {
        if let Some(found) = first_at(alloc, snapshot, held, request, SliceNo(slice), flags)? {
            return Ok(Some(found));
        }
    }
    Ok(None)
}
