// One observation, by the seconds that it takes.

ghost use Rattle.std.specs.Prelude.{◌≡◌, ◌+◌, ◌*◌, ◌↔◌, IsTrue, Any, All};
ghost use Rattle.plan_base.specs.Snapshot.{IsSortedApart};
ghost use Rattle.plan_base.specs.BySpans.{OneHasAll};
ghost use Rattle.plan_base.specs.Skies.{SkiesRise};

use plan_base::{Sec, SiteNo, Sky, SliceNo, Span, TargetNo, sky_of};

/// The seconds of an observation that begins with a slice.
pub(crate) fn times_of(len: u32, seconds: u32, slice: SliceNo) -> Span
    ensures from { result.from.0 ≡ slice.0 * len }
    ensures to { result.to.0 ≡ slice.0 * len + seconds }
{
    let from = u64::from(slice.0) * u64::from(len);
    Span {
        from: Sec(from),
        to: Sec(from + u64::from(seconds)),
    }
}

/// Whether the times lie inside one of the spans.
pub(crate) fn lies_in_any(spans: &[Span], times: Span) -> bool
    ensures { IsTrue result ↔ OneHasAll spans.now times.from.0 times.to.0 }
{
    spans.iter().any(|span| span.from.0 <= times.from.0 && times.to.0 <= span.to.0)
}

/// Whether the times lie inside one of the spans, which are sorted with gaps between them. It looks by halves.
pub(crate) fn lies_in_sorted(spans: &[Span], times: Span) -> bool
    requires { IsSortedApart spans.now }
    ensures { IsTrue result ↔ OneHasAll spans.now times.from.0 times.to.0 }
{
    let begun = spans.partition_point(|span| span.from.0 <= times.from.0);
    begun > 0 && times.to.0 <= spans[begun - 1].to.0
}

/// Whether the target is visible from the site all these times.
pub(crate) fn is_visible(skies: &[Sky], target: TargetNo, site: SiteNo, times: Span) -> bool
    requires rise { SkiesRise skies.now }
    requires apart { All (λ sky. IsSortedApart sky.spans) skies.now }
    ensures { IsTrue result ↔ Any (λ sky. (sky.target.0 ≡ target.0) × (sky.site.0 ≡ site.0) × OneHasAll sky.spans times.from.0 times.to.0) skies.now }
{
    match sky_of(skies, target, site) {
        Some(sky) => lies_in_sorted(sky.spans.as_slice(), times),
        None => false,
    }
}
