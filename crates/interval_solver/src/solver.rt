// The best of one telescope at prices.

ghost use Rattle.std.specs.Prelude.{◌≡◌, ◌<◌, ◌+◌, [], length, All, IfOk, HoldsAt};
ghost use Rattle.plan_base.specs.Requests.{listed};
ghost use Rattle.plan_base.specs.Bound.{IsBest};
ghost use Rattle.plan_base.specs.Canonical.{IsCanonicalUse};
ghost use Rattle.plan_base.specs.Round.{uses_of};
ghost use Rattle.plan_base.specs.Verdict.{IsPriceInRange};
ghost use Rattle.snapshot_starts.specs.Runs.{AreAllStarts};
ghost use Rattle.interval_solver.specs.Tables.{IsEntry};
ghost use Rattle.interval_solver.specs.Lanes.{lane, IsForLanes};
ghost use Rattle.interval_solver.specs.Solving.{HasRoom, AreUsesMore};

use crate::numbers::zero_table;
use crate::rows::Rows;
use crate::table::fill;
use crate::uses::Uses;
use crate::walk::walk;
use plan_base::{Placement, Prices, Snapshot, TelescopeNo};
use snapshot_starts::Starts;
use std::alloc::{AllocError, Global};
use std::marker::Model;

/// One telescope of a snapshot, with what it takes to find its best at any prices. Contracts see the snapshot's parts,
/// the telescope and what it starts at the last prices.
pub struct Solver<'a> {
    rows: Rows<'a>,
    prices: Vec<[i64; 1]>,
    table: Vec<[i64; 1]>,
    uses: Uses<'a>,
}

impl Drop for Solver<'_> {
    fn drop(self) {
        let Self {
            rows: _,
            prices: _,
            table: _,
            uses: _,
        } = self;
    }
}

impl<'a> Model for Solver<'a> {
    ghost use Rattle.interval_solver.specs.Solving.{Solving, IsReady};

    ghost Value = { Solving };

    ghost view = { λ a. record { snapshot = a.rows.snapshot; telescope = a.rows.telescope; chosen = a.uses.starts } };

    ghost invariant = { λ a. IsReady a.rows a.prices.items a.table.items a.uses };
}

impl<'a> Solver<'a> {
    /// A solver of a telescope. The starts are all possible starts of the snapshot. It takes all memory that it will
    /// need, and works out what each start is worth. Fails only for want of memory.
    pub fn new(
        alloc: Global,
        telescope: TelescopeNo,
        snapshot: &'a Snapshot,
        starts: &Starts,
    ) -> Result<Solver<'a>, AllocError>
        requires { AreAllStarts snapshot.now starts.now }
        ensures { IfOk result (λ solver. solver ≡ record { snapshot = snapshot.now; telescope = telescope.0; chosen = [] }) }
    {
        snapshot.recall_valid();
        let slices = snapshot.parts().slices as usize;
        Ok(Solver {
            rows: Rows::new(alloc, telescope, snapshot, starts)?,
            prices: zero_table(alloc, snapshot.request_count())?,
            table: zero_table(alloc, slices + 1)?,
            uses: Uses::new(alloc, snapshot, slices)?,
        })
    }

    /// The greatest sum, over all lists of possible starts of the telescope of which no two share a slice, of what the
    /// starts are worth less the prices of their requests. A request may stand in a list more than once, and the empty
    /// list is one, so the sum is not negative. There is one price for each request, from -10^12 to 10^12. It costs a
    /// few steps for each request of the snapshot, each slice and each possible start of the telescope, and takes no memory.
    pub fn solve(&mut self, prices: &Prices) -> i64
        requires count { length prices.now.0 ≡ length (listed self.old.snapshot) }
        requires range { All IsPriceInRange prices.now.0 }
        ensures best { IsBest self.old.snapshot prices.now.0 self.old.telescope self.old.snapshot.first.0 result }
        ensures chosen { IsCanonicalUse self.old.snapshot prices.now.0 self.old.telescope self.new.chosen }
        ensures same_snapshot { self.new.snapshot ≡ self.old.snapshot }
        ensures same_telescope { self.new.telescope ≡ self.old.telescope }
    {
        write_prices(prices.0.as_slice(), self.prices.as_mut_slice());
        self.uses.clear();
        solve_one(
            &self.rows,
            self.prices.as_slice(),
            self.table.as_mut_slice(),
            &mut self.uses,
        )
    }

    /// What the telescope starts at the last prices, slice by slice, and nothing before the first call of
    /// [`Solver::solve`]: from the first slice on nothing where the next slice has the same best, and else the lowest
    /// request that reaches the best.
    pub fn chosen(&self) -> &[Placement]
        ensures { result.now ≡ self.now.chosen }
    {
        self.uses.starts()
    }

    /// How often the telescope starts the request at a place at the last prices: at most once for each slice, and 0
    /// before the first call of [`Solver::solve`].
    pub fn uses(&self, member: usize) -> u32
        requires { member < length (listed self.now.snapshot) }
        ensures { HoldsAt (λ x. result ≡ uses_of self.now.chosen x.request.request.0) (listed self.now.snapshot) member }
    {
        self.uses.count(member)
    }
}

/// Writes prices for one lane.
fn write_prices(prices: &[i64], lanes: &mut [[i64; 1]])
    requires count { length lanes.old ≡ length prices.now }
    requires range { All IsPriceInRange prices.now }
    ensures range { All (IsForLanes 1 IsPriceInRange) lanes.new }
    ensures prices { lane 0 lanes.new ≡ prices.now }
{
    for place in 0..prices.len() {
        lanes[place] = [prices[place]];
    }
}

/// The best of a telescope in one lane. What it starts is added to the uses.
fn solve_one(
    rows: &Rows<'_>,
    prices: &[[i64; 1]],
    table: &mut [[i64; 1]],
    uses: &mut Uses<'_>,
) -> i64
    requires count { length prices.now ≡ length (listed rows.now.snapshot) }
    requires range { All (IsForLanes 1 IsPriceInRange) prices.now }
    requires entries { length table.old ≡ rows.now.snapshot.slices + 1 }
    requires table { All (IsForLanes 1 IsEntry) table.old }
    requires uses { HasRoom rows.now.snapshot uses.old }
    ensures entries { length table.new ≡ length table.old }
    ensures table { All (IsForLanes 1 IsEntry) table.new }
    ensures best { IsBest rows.now.snapshot (lane 0 prices.now) rows.now.telescope rows.now.snapshot.first.0 result }
    ensures uses { AreUsesMore rows.now.snapshot (lane 0 prices.now) rows.now.telescope uses.old uses.new }
{
    rows.snapshot.recall_valid();
    fill(&rows.starts, prices, table);
    walk(
        rows.snapshot,
        rows.telescope,
        &rows.starts,
        prices,
        table,
        0,
        uses,
    );
    table[0][0]
}
