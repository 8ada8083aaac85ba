// A request on a telescope: how many starts it has there, and what the telescope gives through one of them.

ghost use Rattle.std.specs.Prelude.{◌≡◌, ◌+◌, ◌<◌, ◌≤◌, length, All, MatchOption};
ghost use Rattle.plan_base.specs.Limits.{most_slices};
ghost use Rattle.plan_base.specs.Verdict.{IsPriceInRange};
ghost use Rattle.explain.specs.Through.{IsThrough};
ghost use Rattle.explain.specs.Forced.{CanTake};
ghost use Rattle.plan_base.specs.Tables.{row};
ghost use Rattle.openings.specs.Openings.{AreOpenings};
ghost use Rattle.explain.specs.Steps.{IsChart};
ghost use Rattle.explain.specs.Crossings.{IsLargerOf, count_of, IsGainIfAny, AreGainsTo, IsDetourIfAny, IsCrossing};

use crate::chart::Chart;
use bound_checker::weight_at;
use openings::Openings;
use plan_base::{Prices, Snapshot, TelescopeNo, larger};

/// What is known of a request on a telescope.
#[derive(Clone, Copy)]
pub(crate) struct Crossing {
    /// How many possible starts it has there.
    pub starts: u64,
    /// What the telescope gives through one of them, less its best; none where there is no start.
    pub detour: Option<i64>,
}

/// The starts so far, and the greatest of what they give.
#[derive(Clone, Copy)]
struct Gains {
    starts: u64,
    greatest: Option<i64>,
}

/// What is known of a request on a telescope.
pub(crate) fn cross(
    snapshot: &Snapshot,
    prices: &Prices,
    telescope: TelescopeNo,
    chart: &Chart,
    openings: &Openings,
) -> Crossing
    requires prices { All IsPriceInRange prices.now.0 }
    requires chart { IsChart snapshot.now prices.now.0 telescope.0 chart.now }
    requires telescope { telescope.0 < length snapshot.now.telescopes }
    requires openings { AreOpenings snapshot.now prices.now.0 openings.now }
    ensures { IsCrossing snapshot.now prices.now.0 telescope.0 openings.now.request.0 result.starts result.detour }
{
    snapshot.recall_valid();
    let gains = gains_of(snapshot, prices, telescope, chart, openings);
    Crossing {
        starts: gains.starts,
        detour: detour_of(snapshot, prices, telescope, chart, openings, gains.greatest),
    }
}

/// The starts of a request on a telescope.
fn gains_of(
    snapshot: &Snapshot,
    prices: &Prices,
    telescope: TelescopeNo,
    chart: &Chart,
    openings: &Openings,
) -> Gains
    requires prices { All IsPriceInRange prices.now.0 }
    requires chart { IsChart snapshot.now prices.now.0 telescope.0 chart.now }
    requires telescope { telescope.0 < length snapshot.now.telescopes }
    requires openings { AreOpenings snapshot.now prices.now.0 openings.now }
    ensures gains { AreGainsTo snapshot.now prices.now.0 telescope.0 openings.now.request.0
        (snapshot.now.first.0 + snapshot.now.slices) result.starts result.greatest }
    ensures few { result.starts ≤ most_slices }
{
    snapshot.recall_valid();
    let mut gains = Gains {
        starts: 0,
        greatest: None,
    };
    for index in 0..openings.rows[usize::from(telescope.0)].len() {
        let gain = gain_at(snapshot, prices, telescope, chart, openings, index);
        gains = with_gain(gains, gain);
    }
    gains
}

/// What the telescope gives with the request's start at a slice of the horizon, if it has one there.
fn gain_at(
    snapshot: &Snapshot,
    prices: &Prices,
    telescope: TelescopeNo,
    chart: &Chart,
    openings: &Openings,
    index: usize,
) -> Option<i64>
    requires prices { All IsPriceInRange prices.now.0 }
    requires chart { IsChart snapshot.now prices.now.0 telescope.0 chart.now }
    requires telescope { telescope.0 < length snapshot.now.telescopes }
    requires openings { AreOpenings snapshot.now prices.now.0 openings.now }
    requires index { index < length (row openings.now.rows.items telescope.0) }
    ensures { IsGainIfAny snapshot.now prices.now.0 telescope.0 openings.now.request.0 (snapshot.now.first.0 + index) result }
{
    let flags = openings.rows[usize::from(telescope.0)].as_slice();
    if !flags[index] {
        return None;
    }
    let first = u64::from(snapshot.parts().first.0);
    let weight = weight_at(&openings.offer, first + index as u64);
    let until = chart.until[index];
    let after = chart.after[index + openings.offer.size as usize];
    Some(until + weight + after)
}

/// The starts with one more, if there is one.
fn with_gain(gains: Gains, gain: Option<i64>) -> Gains
    requires { gains.starts < most_slices }
    ensures starts { result.starts ≡ gains.starts + count_of gain }
    ensures greatest { IsLargerOf gains.greatest gain result.greatest }
{
    Gains {
        starts: gains.starts + u64::from(gain.is_some()),
        greatest: larger_of(gains.greatest, gain),
    }
}

/// The larger of the numbers that there are.
pub(crate) fn larger_of(first: Option<i64>, second: Option<i64>) -> Option<i64>
    ensures { IsLargerOf first second result }
{
    match (first, second) {
        (Some(first), Some(second)) => Some(larger(first, second)),
        (Some(first), None) => Some(first),
        (None, second) => second,
    }
}

/// What the telescope gives through a request, less its best.
fn detour_of(
    snapshot: &Snapshot,
    prices: &Prices,
    telescope: TelescopeNo,
    chart: &Chart,
    openings: &Openings,
    through: Option<i64>,
) -> Option<i64>
    requires prices { All IsPriceInRange prices.now.0 }
    requires chart { IsChart snapshot.now prices.now.0 telescope.0 chart.now }
    requires through { MatchOption through
        (¬ (CanTake snapshot.now telescope.0 openings.now.request.0))
        (IsThrough snapshot.now prices.now.0 telescope.0 openings.now.request.0) }
    ensures { IsDetourIfAny snapshot.now prices.now.0 telescope.0 openings.now.request.0 result }
{
    snapshot.recall_valid();
    let best = chart.after[0];
    match through {
        Some(through) => Some(through - best),
        None => None,
    }
}
