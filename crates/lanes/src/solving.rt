// All telescopes, solved for several lanes in step.

ghost use Rattle.std.specs.Prelude.{◌≡◌, ◌≢◌, ℕ, ◌+◌, ◌≤◌, ◌<◌, length, slice_index_or, All};
ghost use Rattle.interval_solver.specs.Limits.{most_at_once};
ghost use Rattle.plan_base.specs.Verdict.{IsPriceInRange};
ghost use Rattle.plan_base.specs.Requests.{listed};
ghost use Rattle.interval_solver.specs.Tables.{IsEntry};
ghost use Rattle.interval_solver.specs.Lanes.{lane, IsForLanes};
ghost use Rattle.interval_solver.specs.Uses.{Started};
ghost use Rattle.interval_solver.specs.Solving.{AreRowsOf};
ghost use Rattle.lanes.specs.declared.lane_prices.LanePrices.{LanePrices};
ghost use Rattle.lanes.specs.Rounds.{IsSolved};
ghost use Rattle.lanes.specs.Ready.{IsAsLong, IsRoomy, IsEmpty, IsCleared};

use crate::lane_prices::LanePrices;
use interval_solver::{Rows, Uses};
use plan_base::{Prices, Snapshot};

/// Writes the prices of all lanes side by side.
pub(crate) fn write_lanes<const L: usize>(lanes: &[LanePrices], into: &mut [[i64; L]])
    requires lanes { length lanes.now ≡ L }
    requires count { All (λ x. length x.prices.0 ≡ length into.old) lanes.now }
    requires range { All (λ x. All IsPriceInRange x.prices.0) lanes.now }
    requires long { All (IsAsLong L) into.old }
    ensures count { length into.new ≡ length into.old }
    ensures range { All (IsForLanes L IsPriceInRange) into.new }
    ensures prices { (place : ℕ) (d : LanePrices) → place < L → lane place into.new ≡ (slice_index_or lanes.now place d).prices.0 }
{
    for place in 0..L {
        write_lane(&lanes[place].prices, place, into);
    }
}

/// Writes the prices of a lane among those of all.
fn write_lane<const L: usize>(prices: &Prices, place: usize, into: &mut [[i64; L]])
    requires lane { place < L }
    requires count { length prices.now.0 ≡ length into.old }
    requires long { All (IsAsLong L) into.old }
    ensures count { length into.new ≡ length into.old }
    ensures long { All (IsAsLong L) into.new }
    ensures here { lane place into.new ≡ prices.now.0 }
    ensures others { (k : ℕ) → k ≢ place → lane k into.new ≡ lane k into.old }
{
    let prices = prices.0.as_slice();
    for request in 0..prices.len() {
        into[request][place] = prices[request];
    }
}

/// Takes out all that was started.
pub(crate) fn clear_uses(uses: &mut [Uses<'_>])
    ensures count { length uses.new ≡ length uses.old }
    ensures each { (place : ℕ) (d : Started) → place < length uses.old → IsCleared (slice_index_or uses.old place d) (slice_index_or uses.new place d) }
{
    for place in 0..uses.len() {
        uses[place].clear();
    }
}

/// Solves all telescopes of a snapshot at the prices of `L` lanes, whose uses are empty.
pub(crate) fn solve_telescopes<const L: usize>(
    snapshot: &Snapshot,
    rows: &[Rows<'_>],
    prices: &[[i64; L]],
    table: &mut [[i64; L]],
    bests: &mut [[i64; L]],
    uses: &mut [Uses<'_>],
)
    requires lanes { (1 ≤ L) × (L ≤ most_at_once) }
    requires rows { AreRowsOf snapshot.now (length snapshot.now.telescopes) rows.now }
    requires count { length prices.now ≡ length (listed snapshot.now) }
    requires range { All (IsForLanes L IsPriceInRange) prices.now }
    requires entries { length table.old ≡ snapshot.now.slices + 1 }
    requires table { All (IsForLanes L IsEntry) table.old }
    requires bests { length bests.old ≡ length snapshot.now.telescopes }
    requires long { All (IsAsLong L) bests.old }
    requires each { length uses.old ≡ L }
    requires uses { All (IsEmpty snapshot.now) uses.old }
    ensures entries { length table.new ≡ length table.old }
    ensures table { All (IsForLanes L IsEntry) table.new }
    ensures bests { length bests.new ≡ length bests.old }
    ensures long { All (IsAsLong L) bests.new }
    ensures each { length uses.new ≡ length uses.old }
    ensures uses { All (IsRoomy snapshot.now) uses.new }
    ensures solved { (place : ℕ) (u : Started) → place < L
        → IsSolved snapshot.now (lane place prices.now) (slice_index_or uses.new place u).starts (lane place bests.new) }
{
    for telescope in 0..snapshot.parts().telescopes.len() {
        bests[telescope] = rows[telescope].solve(prices, table, uses);
    }
}

/// Copies the numbers of a lane out of those of all.
pub(crate) fn copy_lane<const L: usize>(from: &[[i64; L]], place: usize, into: &mut [i64])
    requires lane { place < L }
    requires count { length into.old ≡ length from.now }
    requires long { All (IsAsLong L) from.now }
    ensures { into.new ≡ lane place from.now }
{
    for row in 0..from.len() {
        into[row] = from[row][place];
    }
}
