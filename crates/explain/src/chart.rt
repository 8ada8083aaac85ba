// The bests of a telescope, until each slice and from each slice on.

ghost use Rattle.std.specs.Prelude.{◌≡◌, ◌<◌, length, All, IfOk};
ghost use Rattle.plan_base.specs.Requests.{listed};
ghost use Rattle.plan_base.specs.Verdict.{IsPriceInRange};
ghost use Rattle.explain.specs.Steps.{IsChart};

use crate::until::fill_until;
use bound_checker::{fill_table, starts_of};
use plan_base::{Prices, Snapshot, TelescopeNo, repeated};
use std::alloc::{AllocError, Global};

/// The bests of a telescope. Each table has a number for each slice of the horizon, and one for its end.
pub(crate) struct Chart {
    /// What ends by each slice.
    pub until: Vec<i64>,
    /// What begins at each slice or later.
    pub after: Vec<i64>,
}

impl Drop for Chart {
    fn drop(self) {
        let Self { until: _, after: _ } = self;
    }
}

/// The chart of a telescope: one pass forward over its starts, and one backward. Fails only for want of memory.
pub(crate) fn chart_of(
    alloc: Global,
    snapshot: &Snapshot,
    telescope: TelescopeNo,
    prices: &Prices,
) -> Result<Chart, AllocError>
    requires telescope { telescope.0 < length snapshot.now.telescopes }
    requires count { length prices.now.0 ≡ length (listed snapshot.now) }
    requires range { All IsPriceInRange prices.now.0 }
    ensures { IfOk result (λ chart. IsChart snapshot.now prices.now.0 telescope.0 chart) }
{
    snapshot.recall_valid();
    let rows = starts_of(alloc, snapshot, telescope, prices)?;
    let mut until = repeated(alloc, 0, rows.len() + 1)?;
    fill_until(rows.as_slice(), until.as_mut_slice());
    let mut after = repeated(alloc, 0, rows.len() + 1)?;
    fill_table(rows.as_slice(), after.as_mut_slice());
    Ok(Chart { until, after })
}
