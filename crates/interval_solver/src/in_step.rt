// The bests of a telescope at several lists of prices at once.

ghost use Rattle.std.specs.Prelude.{◌≡◌, ℕ, ◌≤◌, ◌<◌, ◌+◌, length, All};
ghost use Rattle.interval_solver.specs.Limits.{most_at_once};
ghost use Rattle.plan_base.specs.Requests.{listed};
ghost use Rattle.plan_base.specs.Starts.{IsPossibleStart};
ghost use Rattle.plan_base.specs.Verdict.{IsPriceInRange};
ghost use Rattle.interval_solver.specs.Tables.{IsEntry, IsRecursion};
ghost use Rattle.interval_solver.specs.Lanes.{lane, IsForLanes};
ghost use Rattle.interval_solver.specs.Listings.{IsListing};
ghost use Rattle.interval_solver.specs.Solving.{HasRoom, AreAllUsesMore, AreLanesSolved};

use crate::rows::Rows;
use crate::start_rows::StartRows;
use crate::table::fill;
use crate::uses::Uses;
use crate::walk::walk;
use plan_base::{Snapshot, TelescopeNo};

impl<'a> Rows<'a> {
    /// For each of `L` lanes, at its prices, the greatest sum, over all lists of possible starts of the telescope
    /// of which no two share a slice, of what the starts are worth less the prices of their requests, as
    /// [`crate::Solver::solve`] has it. What the telescope starts to reach it is added to the lane's uses. The lanes
    /// are solved in step: there is a list of `L` prices for each request, each from -10^12 to 10^12, and a table with
    /// an entry for each slice and one more, which is for the call's own use. `L` is 1 to 64, and there is a [`Uses`] for
    /// each lane, with room for as many starts more as the horizon has slices. It takes no memory.
    pub fn solve<const L: usize>(
        &self,
        prices: &[[i64; L]],
        table: &mut [[i64; L]],
        uses: &mut [Uses<'_>],
    ) -> [i64; L]
        requires lanes { (1 ≤ L) × (L ≤ most_at_once) }
        requires count { length prices.now ≡ length (listed self.now.snapshot) }
        requires range { All (IsForLanes L IsPriceInRange) prices.now }
        requires entries { length table.old ≡ self.now.snapshot.slices + 1 }
        requires table { All (IsForLanes L IsEntry) table.old }
        requires each { length uses.old ≡ L }
        requires uses { All (HasRoom self.now.snapshot) uses.old }
        ensures entries { length table.new ≡ length table.old }
        ensures table { All (IsForLanes L IsEntry) table.new }
        ensures solved { AreLanesSolved self.now.snapshot self.now.telescope L prices.now uses.old uses.new result }
    {
        self.snapshot.recall_valid();
        fill(&self.starts, prices, table);
        walk_all(
            self.snapshot,
            self.telescope,
            &self.starts,
            prices,
            table,
            uses,
        );
        table[0]
    }
}

/// Adds what the telescope starts in each lane to its uses.
fn walk_all<const L: usize>(
    snapshot: &Snapshot,
    telescope: TelescopeNo,
    rows: &StartRows,
    prices: &[[i64; L]],
    table: &[[i64; L]],
    uses: &mut [Uses<'_>],
)
    requires listing { IsListing snapshot.now telescope.0 (IsPossibleStart snapshot.now) rows.now }
    requires count { length prices.now ≡ length (listed snapshot.now) }
    requires range { All (IsForLanes L IsPriceInRange) prices.now }
    requires length { length table.now ≡ length rows.now + 1 }
    requires entries { All (IsForLanes L IsEntry) table.now }
    requires recursion { (place : ℕ) → place < L → IsRecursion rows.now (lane place prices.now) (lane place table.now) }
    requires each { length uses.old ≡ L }
    requires uses { All (HasRoom snapshot.now) uses.old }
    ensures { AreAllUsesMore snapshot.now telescope.0 L prices.now uses.old uses.new }
{
    for place in 0..L {
        walk(
            snapshot,
            telescope,
            rows,
            prices,
            table,
            place,
            &mut uses[place],
        );
    }
}
