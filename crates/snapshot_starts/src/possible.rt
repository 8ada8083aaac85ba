// Whether a placement is a possible start.

ghost use Rattle.std.specs.Prelude.{◌≤◌, ◌↔◌, IsTrue, All};
ghost use Rattle.plan_base.specs.Limits.{most_seconds};
ghost use Rattle.plan_base.specs.Snapshot.{IsOrderly, IsSortedApart};
ghost use Rattle.plan_base.specs.Starts.{IsPossibleStart};
ghost use Rattle.snapshot_starts.specs.Pairs.{IsTimely, IsOpen, CanStart};
ghost use Rattle.plan_base.specs.BySpans.{IsVisibleThrough};

use crate::observation::{is_visible, lies_in_any, lies_in_sorted, times_of};
use crate::telescope::{is_able, telescope_at};
use plan_base::{
    Parts, Placement, RequestPart, SiteNo, SliceNo, Snapshot, Span, TargetNo, TelescopeNo,
    TelescopePart, slices_for,
};

/// Whether the placement is a possible start: its request is one of the snapshot, on one of its telescopes, within the
/// horizon, inside one window, while the telescope is usable and each target visible. It takes no memory.
pub fn is_possible(snapshot: &Snapshot, placement: Placement) -> bool
    ensures { IsTrue result ↔ IsPossibleStart snapshot.now placement }
{
    let parts = snapshot.parts();
    match snapshot.place_of(placement.request) {
        Some(place) => {
            let request = snapshot.request_at(place);
            can_start(parts, request, placement.telescope, placement.slice)
        }
        None => false,
    }
}

/// Whether the request may start on the telescope at the slice.
pub(crate) fn can_start(
    parts: &Parts,
    request: &RequestPart,
    telescope: TelescopeNo,
    slice: SliceNo,
) -> bool
    requires orderly { IsOrderly parts.now }
    requires seconds { request.now.seconds ≤ most_seconds }
    ensures { IsTrue result ↔ CanStart parts.now request.now telescope slice.0 }
{
    if !is_able(request, telescope) {
        return false;
    }
    if !is_timely(parts, request, slice) {
        return false;
    }
    match telescope_at(parts, telescope) {
        Some(part) => {
            let times = times_of(parts.len, request.seconds, slice);
            is_open(parts, part, request, times)
        }
        None => false,
    }
}

/// Whether an observation of the request that begins with the slice lies within the horizon and inside one window.
fn is_timely(parts: &Parts, request: &RequestPart, slice: SliceNo) -> bool
    requires orderly { IsOrderly parts.now }
    requires seconds { request.now.seconds ≤ most_seconds }
    ensures { IsTrue result ↔ IsTimely parts.now request.now slice.0 }
{
    let size = slices_for(u64::from(parts.len), u64::from(request.seconds));
    let last = u64::from(parts.first.0) + u64::from(parts.slices);
    parts.first.0 <= slice.0
        && u64::from(slice.0) + size <= last
        && lies_in_any(
            request.windows.as_slice(),
            times_of(parts.len, request.seconds, slice),
        )
}

/// Whether each of the targets is visible from the site all these times.
fn are_visible(parts: &Parts, targets: &[TargetNo], site: SiteNo, times: Span) -> bool
    requires { IsOrderly parts.now }
    ensures { IsTrue result ↔ All (λ target. IsVisibleThrough parts.now target.0 site.0 times.from.0 times.to.0) targets.now }
{
    for target in targets {
        if !is_visible(parts.skies.as_slice(), *target, site, times) {
            return false;
        }
    }
    true
}

/// Whether the telescope is usable, and each target of the request visible from its site, all these times.
fn is_open(parts: &Parts, part: &TelescopePart, request: &RequestPart, times: Span) -> bool
    requires orderly { IsOrderly parts.now }
    requires usable { IsSortedApart part.now.usable }
    ensures { IsTrue result ↔ IsOpen parts.now part.now request.now.targets times.from.0 times.to.0 }
{
    lies_in_sorted(part.usable.as_slice(), times)
        && are_visible(parts, request.targets.as_slice(), part.site, times)
}
