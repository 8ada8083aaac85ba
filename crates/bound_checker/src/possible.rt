// Whether a placement is a possible start, by whole observations inside single spans.

ghost use Rattle.std.specs.Prelude.{◌≡◌, ◌<◌, ◌≤◌, ◌+◌, ◌*◌, ◌↔◌, length, All, MatchOption, IsTrue};
ghost use Rattle.plan_base.specs.Limits.{most_seconds};
ghost use Rattle.plan_base.specs.Requests.{IsKnown};
ghost use Rattle.plan_base.specs.Starts.{IsPossibleStart, slices_for};
ghost use Rattle.plan_base.specs.Snapshot.{IsOrderly, IsSortedApart};
ghost use Rattle.plan_base.specs.BySpans.{OneHasAll, IsVisibleThrough};
ghost use Rattle.plan_base.specs.Feasible.{IsEachPossible};
ghost use Rattle.plan_base.specs.Verdict.{IsFirst, IsNotPossibleAt};
ghost use Rattle.bound_checker.specs.Claims.{IsEachKnown, CanObserve};

use crate::known::request_of;
use crate::sight::find_sky;
use crate::starts::has_telescope;
use crate::stretches::first_to;
use plan_base::{
    Parts, Placement, RequestPart, Sec, SiteNo, SliceNo, Snapshot, Span, TargetNo, TelescopeNo,
    slices_for,
};

/// The first placement that isn't a possible start.
pub(crate) fn first_not_possible(snapshot: &Snapshot, plan: &[Placement]) -> Option<usize>
    requires { IsEachKnown snapshot.now plan.now }
    ensures { MatchOption result (IsEachPossible snapshot.now plan.now) (IsFirst (IsNotPossibleAt snapshot.now plan.now)) }
{
    for (index, placement) in plan.iter().enumerate() {
        if !is_possible(snapshot, *placement) {
            return Some(index);
        }
    }
    None
}

/// Whether a placement of a request that the snapshot has is a possible start.
fn is_possible(snapshot: &Snapshot, placement: Placement) -> bool
    requires { IsKnown snapshot.now placement.request.0 }
    ensures { IsTrue result ↔ IsPossibleStart snapshot.now placement }
{
    let parts = snapshot.parts();
    let request = request_of(snapshot, placement.request);
    if !has_telescope(request.telescopes.as_slice(), placement.telescope) {
        return false;
    }
    if !is_within_horizon(parts, request, placement.slice) {
        return false;
    }
    let observed = observed_span(parts, request, placement.slice);
    can_observe(parts, request, placement.telescope, observed)
}

/// Whether the slices of the request lie within the horizon where it begins at this one.
fn is_within_horizon(parts: &Parts, request: &RequestPart, slice: SliceNo) -> bool
    requires orderly { IsOrderly parts.now }
    requires seconds { request.now.seconds ≤ most_seconds }
    ensures { IsTrue result ↔ ((parts.now.first.0 ≤ slice.0)
        × (slice.0 + slices_for parts.now.len request.now.seconds ≤ parts.now.first.0 + parts.now.slices)) }
{
    let size = slices_for(u64::from(parts.len), u64::from(request.seconds));
    let end = u64::from(parts.first.0) + u64::from(parts.slices);
    parts.first <= slice && u64::from(slice.0) + size <= end
}

/// The seconds of the request where it begins at this slice.
fn observed_span(parts: &Parts, request: &RequestPart, slice: SliceNo) -> Span
    requires orderly { IsOrderly parts.now }
    requires seconds { request.now.seconds ≤ most_seconds }
    ensures from { result.from.0 ≡ slice.0 * parts.now.len }
    ensures to { result.to.0 ≡ slice.0 * parts.now.len + request.now.seconds }
{
    let from = u64::from(slice.0) * u64::from(parts.len);
    Span {
        from: Sec(from),
        to: Sec(from + u64::from(request.seconds)),
    }
}

/// Whether the telescope can take the request in these seconds.
fn can_observe(parts: &Parts, request: &RequestPart, telescope: TelescopeNo, observed: Span) -> bool
    requires orderly { IsOrderly parts.now }
    requires telescope { telescope.0 < length parts.now.telescopes }
    ensures { IsTrue result ↔ CanObserve parts.now request.now telescope.0 observed.from.0 observed.to.0 }
{
    let part = &parts.telescopes.as_slice()[usize::from(telescope.0)];
    if !has_all(request.windows.as_slice(), observed) {
        return false;
    }
    if !has_all_sorted(part.usable.as_slice(), observed) {
        return false;
    }
    are_visible(parts, request.targets.as_slice(), part.site, observed)
}

/// Whether one of the spans, which come in any order, has all of these seconds.
fn has_all(spans: &[Span], observed: Span) -> bool
    ensures { IsTrue result ↔ OneHasAll spans.now observed.from.0 observed.to.0 }
{
    spans.iter().any(|span| span.from <= observed.from && observed.to <= span.to)
}

/// Whether one of the spans, which have gaps between them, has all of these seconds.
fn has_all_sorted(spans: &[Span], observed: Span) -> bool
    requires { IsSortedApart spans.now }
    ensures { IsTrue result ↔ OneHasAll spans.now observed.from.0 observed.to.0 }
{
    match spans.get(first_to(spans, observed.to.0)) {
        Some(span) => span.from <= observed.from,
        None => false,
    }
}

/// Whether all targets are visible from the site in these seconds.
fn are_visible(parts: &Parts, targets: &[TargetNo], site: SiteNo, observed: Span) -> bool
    requires { IsOrderly parts.now }
    ensures { IsTrue result ↔ All (λ target. IsVisibleThrough parts.now target.0 site.0 observed.from.0 observed.to.0) targets.now }
{
    for target in targets {
        if !is_visible(parts, *target, site, observed) {
            return false;
        }
    }
    true
}

/// Whether the target is visible from the site in these seconds. Without a sky there it never is.
fn is_visible(parts: &Parts, target: TargetNo, site: SiteNo, observed: Span) -> bool
    requires { IsOrderly parts.now }
    ensures { IsTrue result ↔ IsVisibleThrough parts.now target.0 site.0 observed.from.0 observed.to.0 }
{
    let skies = parts.skies.as_slice();
    match find_sky(skies, target, site) {
        Some(place) => has_all_sorted(skies[place].spans.as_slice(), observed),
        None => false,
    }
}
