// The greatest surplus from each slice on, for several lanes in step.

ghost use Rattle.std.specs.Prelude.{◌≡◌, ℕ, ◌+◌, ◌*◌, ◌<◌, ◌≤◌, ◌+ℤ◌, [], length, slice_index_or, All, Contains, FitsSigned};
ghost use Rattle.std.specs.Int.{w64};
ghost use Rattle.interval_solver.specs.Limits.{most_at_once};
ghost use Rattle.plan_base.specs.Limits.{most_slices, most_value};
ghost use Rattle.plan_base.specs.Tables.{row, entry};
ghost use Rattle.plan_base.specs.Verdict.{IsPriceInRange};
ghost use Rattle.interval_solver.specs.Tables.{IsWeight, IsEntry, start_weight, DoRowsFit, IsRecursion};
ghost use Rattle.interval_solver.specs.Blocks.{IsWholeAt, IsCover};
ghost use Rattle.interval_solver.specs.Lanes.{number_in, lane, IsForLanes, IsLarger};
ghost use Rattle.interval_solver.specs.Filling.{IsMostInLanes, AreFilledFrom, AreRestBest};

use crate::row_list::RowList;
use crate::start::Start;
use crate::start_rows::StartRows;
use crate::vectors::{larger, less, plus};

/// Writes the greatest surplus from each slice on, in each lane at the lane's prices: an entry is the greatest of the
/// next one and of what each start in its row gives. The last one, after all slices, is 0.
pub(crate) fn fill<const L: usize>(rows: &StartRows, prices: &[[i64; L]], table: &mut [[i64; L]])
    requires lanes { L ≤ most_at_once }
    requires count { length table.old ≡ length rows.now + 1 }
    requires few { length rows.now ≤ most_slices }
    requires fit { DoRowsFit (length prices.now) rows.now }
    requires prices { All (IsForLanes L IsPriceInRange) prices.now }
    requires entries { All (IsForLanes L IsEntry) table.old }
    ensures count { length table.new ≡ length table.old }
    ensures entries { All (IsForLanes L IsEntry) table.new }
    ensures recursion { (l : ℕ) → l < L → IsRecursion rows.now (lane l prices.now) (lane l table.new) }
{
    let all = &rows.all;
    let wholes = &rows.wholes;
    let singles = &rows.singles;
    let blocks = wholes.len();
    fill_end(all, wholes, singles, prices, table);
    for block in (0..blocks).rev() {
        fill_block(all, wholes, singles, prices, table, block);
    }
}

/// Fills in the end of the table and the slices after the last block.
fn fill_end<const L: usize>(
    rows: &RowList,
    wholes: &RowList,
    singles: &RowList,
    prices: &[[i64; L]],
    table: &mut [[i64; L]],
)
    requires few { length rows.now ≤ most_slices }
    requires fit { DoRowsFit (length prices.now) rows.now }
    requires prices { All (IsForLanes L IsPriceInRange) prices.now }
    requires cover { IsCover rows.now wholes.now singles.now }
    requires count { length table.old ≡ length rows.now + 1 }
    requires entries { All (IsForLanes L IsEntry) table.old }
    ensures filled { AreFilledFrom L rows.now prices.now table.new (4 * length wholes.now) }
{
    let blocks = wholes.len();
    let zero = [0; L];
    table[rows.len()] = zero;
    for slice in (4 * blocks..rows.len()).rev() {
        fill_slice(rows, singles.row(slice), prices, table, slice, zero);
    }
}

/// Fills in the slices of a block, after which all are filled in.
fn fill_block<const L: usize>(
    rows: &RowList,
    wholes: &RowList,
    singles: &RowList,
    prices: &[[i64; L]],
    table: &mut [[i64; L]],
    block: usize,
)
    requires lanes { L ≤ most_at_once }
    requires block { block < length wholes.now }
    requires few { length rows.now ≤ most_slices }
    requires fit { DoRowsFit (length prices.now) rows.now }
    requires prices { All (IsForLanes L IsPriceInRange) prices.now }
    requires cover { IsCover rows.now wholes.now singles.now }
    requires filled { AreFilledFrom L rows.now prices.now table.old (4 * block + 4) }
    ensures filled { AreFilledFrom L rows.now prices.now table.new (4 * block) }
{
    let first = 4 * block;
    let zero = [0; L];
    let best = block_best(wholes.row(block), prices, table, zero);
    let fourth = singles.row(first + 3);
    fill_slice(rows, fourth, prices, table, first + 3, best.fourth);
    let third = singles.row(first + 2);
    fill_slice(rows, third, prices, table, first + 2, best.third);
    let second = singles.row(first + 1);
    fill_slice(rows, second, prices, table, first + 1, best.second);
    fill_slice(rows, singles.row(first), prices, table, first, best.first);
}

/// Fills in a slice, after which all are filled in. Its row's starts are single but for some, of which `rest` are the
/// greatest.
fn fill_slice<const L: usize>(
    rows: &RowList,
    single: &[Start],
    prices: &[[i64; L]],
    table: &mut [[i64; L]],
    slice: usize,
    rest: [i64; L],
)
    requires slice { slice < length rows.now }
    requires few { length rows.now ≤ most_slices }
    requires fit { DoRowsFit (length prices.now) rows.now }
    requires prices { All (IsForLanes L IsPriceInRange) prices.now }
    requires filled { AreFilledFrom L rows.now prices.now table.old (slice + 1) }
    requires numbers { All (FitsSigned w64) rest }
    requires single { (x : _) → Contains single.now x → Contains (row rows.now slice) x }
    requires rest { AreRestBest L rows.now single.now prices.now table.old slice rest }
    ensures filled { AreFilledFrom L rows.now prices.now table.new slice }
    ensures later { (k : ℕ) → slice < k → slice_index_or table.new k [] ≡ slice_index_or table.old k [] }
{
    // The contract alone needs the rows.
    let _ = rows;
    let least = larger(table[slice + 1], rest);
    let best = row_best(single, prices, table, least);
    table[slice] = best;
}

/// Numbers of the lanes for each slice of a block.
#[derive(Clone, Copy)]
struct Four<const L: usize> {
    first: [i64; L],
    second: [i64; L],
    third: [i64; L],
    fourth: [i64; L],
}

/// The greatest of `least` and of what the whole starts of a block give, at each slice of the block.
fn block_best<const L: usize>(
    wholes: &[Start],
    prices: &[[i64; L]],
    table: &[[i64; L]],
    least: [i64; L],
) -> Four<L>
    requires worths { All (λ x. x.worth ≤ most_value) wholes.now }
    requires places { All (λ x. x.place < length prices.now) wholes.now }
    requires afters { All (λ x. x.after + 3 < length table.now) wholes.now }
    requires prices { All (IsForLanes L IsPriceInRange) prices.now }
    requires entries { All (IsForLanes L IsEntry) table.now }
    requires least { All (FitsSigned w64) least }
    ensures fit { All (FitsSigned w64) result.first × All (FitsSigned w64) result.second × All (FitsSigned w64) result.third
        × All (FitsSigned w64) result.fourth }
    ensures first { IsMostInLanes L (IsWholeAt wholes.now 0) prices.now table.now least.entry result.first }
    ensures second { IsMostInLanes L (IsWholeAt wholes.now 1) prices.now table.now least.entry result.second }
    ensures third { IsMostInLanes L (IsWholeAt wholes.now 2) prices.now table.now least.entry result.third }
    ensures fourth { IsMostInLanes L (IsWholeAt wholes.now 3) prices.now table.now least.entry result.fourth }
{
    let mut first = least;
    let mut second = least;
    let mut third = least;
    let mut fourth = least;
    for start in wholes {
        let weight = weight_of(*start, prices);
        let after = start.after as usize;
        first = raised(first, weight, table, after);
        second = raised(second, weight, table, after + 1);
        third = raised(third, weight, table, after + 2);
        fourth = raised(fourth, weight, table, after + 3);
    }
    Four {
        first,
        second,
        third,
        fourth,
    }
}

/// The greatest of `least` and of what each start in a row gives, lane by lane.
fn row_best<const L: usize>(
    row: &[Start],
    prices: &[[i64; L]],
    table: &[[i64; L]],
    least: [i64; L],
) -> [i64; L]
    requires worths { All (λ x. x.worth ≤ most_value) row.now }
    requires places { All (λ x. x.place < length prices.now) row.now }
    requires afters { All (λ x. x.after < length table.now) row.now }
    requires prices { All (IsForLanes L IsPriceInRange) prices.now }
    requires entries { All (IsForLanes L IsEntry) table.now }
    requires least { All (FitsSigned w64) least }
    ensures fit { All (FitsSigned w64) result }
    ensures most { IsMostInLanes L (Contains row.now) prices.now table.now least.entry result }
{
    let mut greatest = least;
    for start in row {
        let weight = weight_of(*start, prices);
        greatest = raised(greatest, weight, table, start.after as usize);
    }
    greatest
}

/// What a start is worth beyond its request's price, lane by lane.
#[inline(always)]
fn weight_of<const L: usize>(start: Start, prices: &[[i64; L]]) -> [i64; L]
    requires worth { start.worth ≤ most_value }
    requires place { start.place < length prices.now }
    requires prices { All (IsForLanes L IsPriceInRange) prices.now }
    ensures weights { All IsWeight result }
    ensures each { (l : ℕ) → l < L → number_in l result ≡ start_weight (lane l prices.now) start }
{
    less(i64::from(start.worth), prices[start.place as usize])
}

/// The larger of weights with what follows at a slice and of numbers, lane by lane.
#[inline(always)]
fn raised<const L: usize>(
    numbers: [i64; L],
    weights: [i64; L],
    table: &[[i64; L]],
    after: usize,
) -> [i64; L]
    requires numbers { All (FitsSigned w64) numbers }
    requires weights { All IsWeight weights }
    requires after { after < length table.now }
    requires entries { All (IsForLanes L IsEntry) table.now }
    ensures fit { All (FitsSigned w64) result }
    ensures each { (l : ℕ) → l < L → IsLarger (number_in l weights.entry +ℤ entry (lane l table.now) after) (number_in l numbers.entry) (number_in l result) }
{
    // In this order the processor keeps the numbers where they are.
    larger(plus(weights, table[after]), numbers)
}
