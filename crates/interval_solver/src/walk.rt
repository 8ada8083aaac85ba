// What a telescope starts to reach its best, in one lane of several.

ghost use Rattle.std.specs.Prelude.{◌≡◌, ◌≢◌, ◌+◌, ◌<◌, ◌≤◌, pos, length, slice_index_or, All, Contains};
ghost use Rattle.plan_base.specs.Limits.{most_value};
ghost use Rattle.plan_base.specs.Requests.{listed};
ghost use Rattle.plan_base.specs.Starts.{IsPossibleStart};
ghost use Rattle.plan_base.specs.Tables.{entry};
ghost use Rattle.plan_base.specs.Verdict.{IsPriceInRange};
ghost use Rattle.interval_solver.specs.Tables.{IsEntry, gain, IsFlat, IsRecursion, IsFirstTight};
ghost use Rattle.interval_solver.specs.Lanes.{lane, IsForLanes};
ghost use Rattle.interval_solver.specs.Listings.{IsListing};
ghost use Rattle.interval_solver.specs.Solving.{HasRoom, AreUsesMore};

use crate::start::Start;
use crate::start_rows::StartRows;
use crate::uses::Uses;
use plan_base::{Placement, SliceNo, Snapshot, TelescopeNo};

/// Adds what the telescope starts in a lane: from the first slice on, nothing where the next entry is the same, else
/// the lowest request that gives the entry.
pub(crate) fn walk<const L: usize>(
    snapshot: &Snapshot,
    telescope: TelescopeNo,
    rows: &StartRows,
    prices: &[[i64; L]],
    table: &[[i64; L]],
    lane_place: usize,
    uses: &mut Uses<'_>,
)
    requires listing { IsListing snapshot.now telescope.0 (IsPossibleStart snapshot.now) rows.now }
    requires lane { lane_place < L }
    requires count { length prices.now ≡ length (listed snapshot.now) }
    requires range { All (IsForLanes L IsPriceInRange) prices.now }
    requires length { length table.now ≡ length rows.now + 1 }
    requires entries { All (IsForLanes L IsEntry) table.now }
    requires recursion { IsRecursion rows.now (lane lane_place prices.now) (lane lane_place table.now) }
    requires uses { HasRoom snapshot.now uses.old }
    ensures { AreUsesMore snapshot.now (lane lane_place prices.now) telescope.0 uses.old uses.new }
{
    let first = snapshot.parts().first.0;
    let mut slice = busy_slice(table, lane_place, 0);
    while slice < rows.len() {
        let entry = number_at(table, slice, lane_place);
        let start = tight_start(rows.row(slice), prices, table, lane_place, entry);
        let request = snapshot.request_at(start.place as usize).request;
        let placement = Placement {
            request,
            telescope,
            slice: SliceNo(first + slice as u32),
        };
        uses.add(u32::from(start.place), placement);
        slice = busy_slice(table, lane_place, start.after as usize);
    }
}

/// The first slice, from one on, whose entry isn't that of the next, or the place of the last entry.
fn busy_slice<const L: usize>(table: &[[i64; L]], lane_place: usize, from: usize) -> usize
    requires lane { lane_place < L }
    requires from { from < length table.now }
    requires entries { All (IsForLanes L IsEntry) table.now }
    ensures from { from ≤ result }
    ensures within { result < length table.now }
    ensures idle { IsFlat (lane lane_place table.now) from result }
    ensures busy { result + 1 < length table.now → entry (lane lane_place table.now) result ≢ entry (lane lane_place table.now) (result + 1) }
{
    let mut slice = from;
    while slice + 1 < table.len()
        && number_at(table, slice, lane_place) == number_at(table, slice + 1, lane_place)
    {
        slice += 1;
    }
    slice
}

/// The first start in a row that gives so much.
fn tight_start<const L: usize>(
    row: &[Start],
    prices: &[[i64; L]],
    table: &[[i64; L]],
    lane_place: usize,
    surplus: i64,
) -> Start
    requires lane { lane_place < L }
    requires worths { All (λ x. x.worth ≤ most_value) row.now }
    requires places { All (λ x. x.place < length prices.now) row.now }
    requires afters { All (λ x. x.after < length table.now) row.now }
    requires prices { All (IsForLanes L IsPriceInRange) prices.now }
    requires entries { All (IsForLanes L IsEntry) table.now }
    requires reached { (x : _) × Contains row.now x × (gain (lane lane_place prices.now) (lane lane_place table.now) x ≡ surplus) }
    ensures { IsFirstTight (lane lane_place prices.now) (lane lane_place table.now) surplus row.now result }
{
    for start in row {
        if gain_of(*start, prices, table, lane_place) == surplus {
            return *start;
        }
    }
    unreachable!()
}

/// What a start gives a lane: its worth less its request's price, and the greatest surplus from the slice after it
/// on.
#[inline(always)]
fn gain_of<const L: usize>(
    start: Start,
    prices: &[[i64; L]],
    table: &[[i64; L]],
    lane_place: usize,
) -> i64
    requires lane { lane_place < L }
    requires worth { start.worth ≤ most_value }
    requires place { start.place < length prices.now }
    requires after { start.after < length table.now }
    requires prices { All (IsForLanes L IsPriceInRange) prices.now }
    requires entries { All (IsForLanes L IsEntry) table.now }
    ensures { result ≡ gain (lane lane_place prices.now) (lane lane_place table.now) start }
{
    let price = number_at(prices, start.place as usize, lane_place);
    let after = number_at(table, start.after as usize, lane_place);
    i64::from(start.worth) - price + after
}

/// The number of a lane at a place.
#[inline(always)]
fn number_at<const L: usize>(numbers: &[[i64; L]], place: usize, lane_place: usize) -> i64
    requires lane { lane_place < L }
    requires place { place < length numbers.now }
    requires lanes { All (λ v. length v ≡ L) numbers.now }
    ensures { result ≡ slice_index_or (lane lane_place numbers.now) place (pos 0) }
{
    numbers[place][lane_place]
}
