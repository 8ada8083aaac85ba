// Sets of slices, kept as sets of seconds are: the numbers of their spans are slices.

ghost use Rattle.std.specs.Prelude.{ℕ, ◌+◌, ◌*◌, ◌≤◌, ◌<◌, ◌↔◌, IsTrue, IfOk, All};
ghost use Rattle.plan_base.specs.Limits.{most_seconds, least_len};
ghost use Rattle.plan_base.specs.Snapshot.{IsOrderly, IsSortedApart};
ghost use Rattle.plan_base.specs.BySpans.{OneHasAll, IsVisibleThrough};
ghost use Rattle.interval_set.specs.Spans.{has};
ghost use Rattle.snapshot_starts.specs.Slices.{AreSlices, AreSlicesIn, IsHorizonFor};
ghost use Rattle.snapshot_starts.specs.Pairs.{IsTimely, IsOpen, CanStart};

use crate::telescope::{is_able, telescope_at};
use interval_set::Spans;
use plan_base::{
    Parts, RequestPart, Sec, SiteNo, Span, TargetNo, TelescopeNo, TelescopePart, sky_of, slices_for,
};
use std::alloc::{AllocError, Global};

/// The slices at which an observation begins that lies inside the span.
fn slices_in(len: u32, seconds: u32, span: Span) -> Span
    requires { least_len ≤ len }
    ensures { AreSlicesIn len seconds span result }
{
    Span {
        from: Sec(first_slice(len, span.from.0)),
        to: Sec(end_slice(len, seconds, span.to.0)),
    }
}

/// The first slice that doesn't begin before a second.
fn first_slice(len: u32, from: u64) -> u64
    requires { least_len ≤ len }
    ensures { (k : ℕ) → (result ≤ k) ↔ (from ≤ k * len) }
{
    from.div_ceil(u64::from(len))
}

/// How many slices from slice 0 on are such that an observation that begins in them ends by the second `to`.
fn end_slice(len: u32, seconds: u32, to: u64) -> u64
    requires { least_len ≤ len }
    ensures { (k : ℕ) → (k < result) ↔ (k * len + seconds ≤ to) }
{
    let Some(latest) = to.checked_sub(u64::from(seconds)) else {
        return 0;
    };
    latest / u64::from(len) + 1
}

/// The slices at which an observation begins that lies inside one of the spans.
fn slices_in_any(alloc: Global, len: u32, seconds: u32, spans: &[Span]) -> Result<Spans, AllocError>
    requires { least_len ≤ len }
    ensures { IfOk result (AreSlices (λ k. OneHasAll spans.now (k * len) (k * len + seconds))) }
{
    let mut slices = Vec::with_capacity(alloc, spans.len())?;
    for span in spans {
        slices.push(slices_in(len, seconds, *span))?;
    }
    Spans::from_list(alloc, slices.as_slice())
}

/// The slices at which an observation of the request begins that lies within the horizon and inside one window.
fn timely_slices(alloc: Global, parts: &Parts, request: &RequestPart) -> Result<Spans, AllocError>
    requires orderly { IsOrderly parts.now }
    requires seconds { request.now.seconds ≤ most_seconds }
    ensures { IfOk result (AreSlices (IsTimely parts.now request.now)) }
{
    let horizon = horizon_for(parts, request.seconds);
    let within = Spans::from_list(alloc, &[horizon])?;
    let windows = request.windows.as_slice();
    let inside = slices_in_any(alloc, parts.len, request.seconds, windows)?;
    within.meet(alloc, &inside)
}

/// The slices at which an observation begins that lies within the horizon.
pub(crate) fn horizon_for(parts: &Parts, seconds: u32) -> Span
    requires orderly { IsOrderly parts.now }
    requires seconds { seconds ≤ most_seconds }
    ensures horizon { IsHorizonFor parts.now seconds result }
    ensures to { result.to.0 ≤ parts.now.first.0 + parts.now.slices + 1 }
{
    let size = slices_for(u64::from(parts.len), u64::from(seconds));
    let first = u64::from(parts.first.0);
    let past = first + u64::from(parts.slices) + 1;
    Span {
        from: Sec(first),
        to: Sec(past.saturating_sub(size)),
    }
}

/// Those of the slices from which on the target is visible from the site for so many seconds.
fn slices_under(
    alloc: Global,
    parts: &Parts,
    seconds: u32,
    target: TargetNo,
    site: SiteNo,
    slices: &Spans,
) -> Result<Spans, AllocError>
    requires { IsOrderly parts.now }
    ensures { IfOk result (AreSlices (λ k. IsTrue (has slices.now k)
        × IsVisibleThrough parts.now target.0 site.0 (k * parts.now.len) (k * parts.now.len + seconds))) }
{
    match sky_of(parts.skies.as_slice(), target, site) {
        Some(sky) => {
            let seen = slices_in_any(alloc, parts.len, seconds, sky.spans.as_slice())?;
            slices.meet(alloc, &seen)
        }
        None => Ok(Spans::empty(alloc)),
    }
}

/// Those of the slices from which on all targets are visible from the site for so many seconds.
fn slices_under_all(
    alloc: Global,
    parts: &Parts,
    seconds: u32,
    targets: &[TargetNo],
    site: SiteNo,
    slices: Spans,
) -> Result<Spans, AllocError>
    requires orderly { IsOrderly parts.now }
    requires sorted { IsSortedApart slices }
    ensures { IfOk result (AreSlices (λ k. IsTrue (has slices k)
        × All (λ target. IsVisibleThrough parts.now target.0 site.0 (k * parts.now.len) (k * parts.now.len + seconds)) targets.now)) }
{
    let mut left = slices;
    for target in targets {
        left = slices_under(alloc, parts, seconds, *target, site, &left)?;
    }
    Ok(left)
}

/// The slices at which the request may start on the telescope.
pub(crate) fn start_slices(
    alloc: Global,
    parts: &Parts,
    request: &RequestPart,
    telescope: TelescopeNo,
) -> Result<Spans, AllocError>
    requires orderly { IsOrderly parts.now }
    requires seconds { request.now.seconds ≤ most_seconds }
    ensures { IfOk result (AreSlices (CanStart parts.now request.now telescope)) }
{
    if !is_able(request, telescope) {
        return Ok(Spans::empty(alloc));
    }
    match telescope_at(parts, telescope) {
        Some(part) => open_slices(alloc, parts, request, part),
        None => Ok(Spans::empty(alloc)),
    }
}

/// The slices at which an observation of the request begins that is timely, and during which the telescope is open.
fn open_slices(
    alloc: Global,
    parts: &Parts,
    request: &RequestPart,
    part: &TelescopePart,
) -> Result<Spans, AllocError>
    requires orderly { IsOrderly parts.now }
    requires seconds { request.now.seconds ≤ most_seconds }
    ensures { IfOk result (AreSlices (λ k. IsTimely parts.now request.now k
        × IsOpen parts.now part.now request.now.targets (k * parts.now.len) (k * parts.now.len + request.now.seconds))) }
{
    let timely = timely_slices(alloc, parts, request)?;
    let spans = part.usable.as_slice();
    let usable = slices_in_any(alloc, parts.len, request.seconds, spans)?;
    let slices = timely.meet(alloc, &usable)?;
    let targets = request.targets.as_slice();
    slices_under_all(alloc, parts, request.seconds, targets, part.site, slices)
}
