// A request on all telescopes.

ghost use Rattle.std.specs.Prelude.{◌≡◌, length, All, IfOk};
ghost use Rattle.plan_base.specs.Requests.{listed};
ghost use Rattle.plan_base.specs.Verdict.{IsPriceInRange};
ghost use Rattle.openings.specs.Openings.{AreOpenings};
ghost use Rattle.explain.specs.Crossings.{AreCharts, IsPassedTo};

use crate::chart::{Chart, chart_of};
use crate::crossing::{cross, larger_of};
use openings::Openings;
use plan_base::{Prices, Snapshot, TelescopeNo};
use std::alloc::{AllocError, Global};

/// What is known of a request on all telescopes.
#[derive(Clone, Copy)]
pub(crate) struct Passage {
    /// How many possible starts it has.
    pub starts: u64,
    /// The greatest that a telescope with one of them gives through it, less its best; none where there is no start.
    pub detour: Option<i64>,
}

/// The charts of all telescopes, in their order. Fails only for want of memory.
pub(crate) fn charts_of(
    alloc: Global,
    snapshot: &Snapshot,
    prices: &Prices,
) -> Result<Vec<Chart>, AllocError>
    requires count { length prices.now.0 ≡ length (listed snapshot.now) }
    requires range { All IsPriceInRange prices.now.0 }
    ensures { IfOk result (λ charts. AreCharts snapshot.now prices.now.0 charts.items) }
{
    let mut charts = Vec::new(alloc);
    for telescope in 0..snapshot.parts().telescopes.len() {
        snapshot.recall_valid();
        let number = TelescopeNo(telescope as u16);
        charts.push(chart_of(alloc, snapshot, number, prices)?)?;
    }
    Ok(charts)
}

/// What is known of a request.
pub(crate) fn pass(
    snapshot: &Snapshot,
    prices: &Prices,
    charts: &[Chart],
    openings: &Openings,
) -> Passage
    requires prices { All IsPriceInRange prices.now.0 }
    requires charts { AreCharts snapshot.now prices.now.0 charts.now }
    requires openings { AreOpenings snapshot.now prices.now.0 openings.now }
    ensures { IsPassedTo snapshot.now prices.now.0 openings.now.request.0 (length snapshot.now.telescopes) result.starts result.detour }
{
    let mut passage = Passage {
        starts: 0,
        detour: None,
    };
    for telescope in 0..charts.len() {
        snapshot.recall_valid();
        let number = TelescopeNo(telescope as u16);
        let crossing = cross(snapshot, prices, number, &charts[telescope], openings);
        passage = Passage {
            starts: passage.starts + crossing.starts,
            detour: larger_of(passage.detour, crossing.detour),
        };
    }
    passage
}
