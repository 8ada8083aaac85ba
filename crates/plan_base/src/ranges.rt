// Whether the numbers of a snapshot's parts are in their ranges.

ghost use Rattle.std.specs.Prelude.{◌≡◌, ◌↔◌, IsTrue};
ghost use Rattle.std.specs.List.{list_all};
ghost use Rattle.plan_base.specs.Snapshot.{IsInRanges};
ghost use Rattle.plan_base.specs.Faults.{all_requests};
ghost use Rattle.plan_base.specs.Ranges.{has_moments, has_ranges, has_horizon, has_all_moments, is_in_ranges};

use crate::greatest::{
    LEAST_LEN, MOST_FIRST, MOST_LEN, MOST_MOMENT, MOST_SECONDS, MOST_SLICES, MOST_VALUE,
    MOST_VERSION,
};
use crate::parts::{GroupPart, Parts, RequestPart, Sky, TelescopePart};
use crate::span::Span;

impl Parts {
    /// Whether the version, the numbers of the horizon, and the seconds and the value of each request are in the ranges
    /// that their fields name, and the moments of all spans from 0 to 10^12, as [`crate::Snapshot::build`] wants them. Fades
    /// and quotas may be any: `build` refuses those that are too great.
    pub fn is_in_ranges(&self) -> bool
        ensures { IsTrue result ↔ IsInRanges self.now }
    {
        is_in_ranges(self)
    }
}

fn is_in_ranges(parts: &Parts) -> bool
    ensures { result ≡ is_in_ranges parts.now }
{
    has_horizon(parts) && has_request_ranges(parts.groups.as_slice()) && has_all_moments(parts)
}

fn has_horizon(parts: &Parts) -> bool
    ensures { result ≡ has_horizon parts.now }
{
    parts.version <= u64::from(MOST_VERSION)
        && (LEAST_LEN <= parts.len && parts.len <= MOST_LEN)
        && parts.first.0 <= MOST_FIRST
        && (1 <= parts.slices && parts.slices <= MOST_SLICES)
}

fn has_request_ranges(groups: &[GroupPart]) -> bool
    ensures { result ≡ list_all has_ranges (all_requests groups.now) }
{
    groups
        .iter()
        .flat_map(|x| x.requests.as_slice())
        .all(|q| has_ranges(q))
}

fn has_ranges(request: &RequestPart) -> bool
    ensures { result ≡ has_ranges request.now }
{
    1 <= request.seconds
        && request.seconds <= MOST_SECONDS
        && (1 <= request.value && request.value <= MOST_VALUE)
}

fn has_all_moments(parts: &Parts) -> bool
    ensures { result ≡ has_all_moments parts.now }
{
    has_usable_moments(parts.telescopes.as_slice())
        && has_sky_moments(parts.skies.as_slice())
        && has_window_moments(parts.groups.as_slice())
}

fn has_usable_moments(telescopes: &[TelescopePart]) -> bool
    ensures { result ≡ list_all (λ t. list_all has_moments t.usable) telescopes.now }
{
    telescopes.iter().all(|t| has_moments(t.usable.as_slice()))
}

fn has_sky_moments(skies: &[Sky]) -> bool
    ensures { result ≡ list_all (λ y. list_all has_moments y.spans) skies.now }
{
    skies.iter().all(|y| has_moments(y.spans.as_slice()))
}

fn has_window_moments(groups: &[GroupPart]) -> bool
    ensures { result ≡ list_all (λ q. list_all has_moments q.windows) (all_requests groups.now) }
{
    groups
        .iter()
        .flat_map(|x| x.requests.as_slice())
        .all(|q| has_moments(q.windows.as_slice()))
}

fn has_moments(spans: &[Span]) -> bool
    ensures { result ≡ list_all has_moments spans.now }
{
    spans
        .iter()
        .all(|w| w.from.0 <= MOST_MOMENT && w.to.0 <= MOST_MOMENT)
}
