// When an observation of a request may begin on a telescope.

ghost use Rattle.std.specs.Prelude.{◌≡◌, ℕ, ◌<◌, ◌^◌, ◌↔◌, IsTrue, true, false, All, MatchOption, IfOk, length};
ghost use Rattle.std.specs.List.Sorted.{IsPartitionPoint};
ghost use Rattle.bound_checker.specs.Stretches.{IsObservation, IsStretch, both};
ghost use Rattle.plan_base.specs.Skies.{is_below, SkiesRise, IsSkyAt};
ghost use Rattle.bound_checker.specs.Sights.{AreViews, IsClearSpans, IsClear, IsInSkies, IsInSight};

use crate::stretches::{Observation, Stretch, stretch_in_any, stretch_in_sorted};
use plan_base::{SiteNo, Sky, Span, TargetNo};
use std::alloc::AllocError;

/// What has to hold an observation: one of the windows, one of the usable spans, and a span of each of the skies.
#[derive(Clone, Copy)]
pub struct Sight<'a> {
    /// The windows of the request, in any order.
    pub windows: &'a [Span],
    /// When the telescope is usable, in rising order with gaps between the spans.
    pub usable: &'a [Span],
    /// The skies of the snapshot.
    pub skies: &'a [Sky],
    /// The places among the skies of those that are meant.
    pub views: &'a [usize],
}

/// The stretch from a slice on of an observation in sight.
pub fn stretch_in_sight(sight: &Sight, observation: Observation, slice: u64) -> Stretch
    requires observation { IsObservation observation }
    requires slice { slice < 2 ^ 32 }
    requires clear { IsClear sight.now }
    ensures { IsStretch (IsInSight sight.now observation) slice result }
{
    let window = stretch_in_any(sight.windows, observation, slice);
    if !window.fits {
        return window;
    }
    let usable = stretch_in_sorted(sight.usable, observation, slice);
    if !usable.fits {
        return usable;
    }
    let skies = stretch_in_skies(sight.skies, sight.views, observation, slice);
    both(both(window, usable), skies)
}

/// The stretch from a slice on of an observation inside a span of each of these skies.
fn stretch_in_skies(skies: &[Sky], views: &[usize], observation: Observation, slice: u64) -> Stretch
    requires observation { IsObservation observation }
    requires slice { slice < 2 ^ 32 }
    requires clear { All (λ y. IsClearSpans y.spans) skies.now }
    requires views { All (λ v. v < length skies.now) views.now }
    ensures { IsStretch (IsInSkies skies.now views.now observation) slice result }
{
    let mut stretch = Stretch {
        fits: true,
        end: u64::MAX,
    };
    for view in views {
        let sky = stretch_in_sorted(skies[*view].spans.as_slice(), observation, slice);
        stretch = both(stretch, sky);
        if !stretch.fits {
            return stretch;
        }
    }
    stretch
}

/// The stretch of two things together, from their stretches.
fn both(a: Stretch, b: Stretch) -> Stretch
    ensures { result ≡ both a b }
{
    if !a.fits {
        return a;
    }
    if !b.fits {
        return b;
    }
    Stretch {
        fits: true,
        end: a.end.min(b.end),
    }
}

/// Writes the places of the targets' skies at a site. False exactly where a target has none there. Fails only for want
/// of memory.
pub fn find_views(
    skies: &[Sky],
    site: SiteNo,
    targets: &[TargetNo],
    views: &mut Vec<usize>,
) -> Result<bool, AllocError>
    requires { SkiesRise skies.now }
    ensures { IfOk result (λ found. AreViews skies.now site targets.now found views.new.items) }
{
    views.clear();
    for target in targets {
        let Some(view) = find_sky(skies, *target, site) else {
            return Ok(false);
        };
        views.push(view)?;
    }
    Ok(true)
}

/// The place of the target's sky at a site, if it has one there.
pub(crate) fn find_sky(skies: &[Sky], target: TargetNo, site: SiteNo) -> Option<usize>
    requires { SkiesRise skies.now }
    ensures { MatchOption result ((v : ℕ) → ¬ (IsSkyAt skies.now target.0 site.0 v)) (IsSkyAt skies.now target.0 site.0) }
{
    let place = first_not_below(skies, target, site);
    if is_sky_at(skies, place, target, site) {
        Some(place)
    } else {
        None
    }
}

/// Whether the target's sky at a site stands at a place.
fn is_sky_at(skies: &[Sky], place: usize, target: TargetNo, site: SiteNo) -> bool
    ensures { IsTrue result ↔ IsSkyAt skies.now target.0 site.0 place }
{
    match skies.get(place) {
        Some(sky) => sky.target == target && sky.site == site,
        None => false,
    }
}

/// How many skies stand below the one of a target at a site.
fn first_not_below(skies: &[Sky], target: TargetNo, site: SiteNo) -> usize
    requires { SkiesRise skies.now }
    ensures { IsPartitionPoint (λ y. is_below target.0 site.0 y ≡ true) (λ y. is_below target.0 site.0 y ≡ false) skies.now result }
{
    skies.partition_point(|sky| is_below(sky, target, site))
}

/// Whether a sky stands below the one of a target at a site.
fn is_below(sky: &Sky, target: TargetNo, site: SiteNo) -> bool
    ensures { result ≡ is_below target.0 site.0 sky.now }
{
    sky.target.0 < target.0 || (sky.target.0 == target.0 && sky.site.0 < site.0)
}
