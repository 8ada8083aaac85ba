// The slices of one pair, as far as those of an earlier snapshot tell them.

ghost use Rattle.std.specs.Prelude.{◌^◌, ◌≤◌, ◌<◌, IfOk};
ghost use Rattle.plan_base.specs.Limits.{most_seconds};
ghost use Rattle.plan_base.specs.Snapshot.{IsOrderly};
ghost use Rattle.snapshot_starts.specs.Slices.{AreSlices};
ghost use Rattle.snapshot_starts.specs.Pairs.{CanStart};
ghost use Rattle.snapshot_starts.specs.Mending.{IsRequest, IsSteadyPair};

use crate::held::Held;
use crate::pair::Pair;
use crate::possible::can_start;
use crate::slices::{horizon_for, start_slices};
use interval_set::Spans;
use plan_base::{Parts, RequestPart, Sec, SliceNo, Span, TelescopeNo};
use std::alloc::{AllocError, Global};

/// The most slices outside of the earlier horizon that are tried one by one. Where more are gained, all are found anew.
const MOST_TRIED: u64 = 16;

/// The slices at which the request may start on the telescope, where all that its starts depend on is as it was: those
/// that it had and that are still within the horizon, and those that the horizon has gained. Where it begins earlier than it
/// did, or has gained more than `MOST_TRIED`, all are found anew. Fails only for want of memory.
pub(crate) fn mended_slices(
    alloc: Global,
    held: &Held,
    parts: &Parts,
    request: &RequestPart,
    telescope: TelescopeNo,
) -> Result<Spans, AllocError>
    requires orderly { IsOrderly parts.now }
    requires seconds { request.now.seconds ≤ most_seconds }
    requires known { IsRequest parts.now request.now }
    requires steady { IsSteadyPair held.now parts.now request.now.request.0 telescope.0 }
    ensures { IfOk result (AreSlices (CanStart parts.now request.now telescope)) }
{
    let horizon = horizon_for(parts, request.seconds);
    let earlier = horizon_for(held.snapshot().parts(), request.seconds);
    let gained = horizon.to.0.saturating_sub(earlier.to.0);
    if horizon.from.0 < earlier.from.0 || gained > MOST_TRIED {
        return start_slices(alloc, parts, request, telescope);
    }
    let pair = Pair {
        request: request.request,
        telescope,
    };
    let stay = held.slices_within(alloc, pair, horizon)?;
    let new = new_slices(alloc, parts, request, telescope, earlier.to, horizon.to)?;
    if new.is_empty() {
        return Ok(stay);
    }
    stay.union(alloc, &new)
}

/// The slices from one up to the one before another at which the request may start on the telescope, each tried.
fn new_slices(
    alloc: Global,
    parts: &Parts,
    request: &RequestPart,
    telescope: TelescopeNo,
    from: Sec,
    to: Sec,
) -> Result<Spans, AllocError>
    requires orderly { IsOrderly parts.now }
    requires seconds { request.now.seconds ≤ most_seconds }
    requires to { to.0 ≤ 2 ^ 32 }
    ensures { IfOk result (AreSlices (λ k. CanStart parts.now request.now telescope k × (from.0 ≤ k) × (k < to.0))) }
{
    let mut slices = Vec::new(alloc);
    for slice in from.0..to.0 {
        if can_start(parts, request, telescope, SliceNo(slice as u32)) {
            slices.push(Span {
                from: Sec(slice),
                to: Sec(slice + 1),
            })?;
        }
    }
    Spans::from_list(alloc, slices.as_slice())
}
