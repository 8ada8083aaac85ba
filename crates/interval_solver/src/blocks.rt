// Which starts stand for four, and which are left.

ghost use Rattle.std.specs.Prelude.{◌≡◌, ◌+◌, ◌*◌, ◌/◌, ◌≤◌, true, length, All, Contains, IfOk, OnOk};
ghost use Rattle.plan_base.specs.Tables.{row};
ghost use Rattle.interval_solver.specs.Blocks.{later, IsWholeAt, IsWholeIn, AreWholes, AreSinglesOf, AreSingles};

use crate::row_list::RowList;
use crate::start::Start;
use std::alloc::{AllocError, Global};

/// For each block of four slices the starts that are there at each slice and end no earlier than the block. Fails only for
/// want of memory.
pub(crate) fn wholes_of(alloc: Global, rows: &RowList) -> Result<RowList, AllocError>
    ensures { IfOk result (λ wholes. AreWholes rows.now wholes (length rows.now / 4)) }
{
    let mut wholes = RowList::new(alloc)?;
    let mut found = Vec::new(alloc);
    for block in 0..rows.len() / 4 {
        list_wholes(rows, block, &mut found)?;
        wholes.push(found.as_slice())?;
    }
    Ok(wholes)
}

/// Lists the whole starts of a block.
fn list_wholes(rows: &RowList, block: usize, found: &mut Vec<Start>) -> Result<(), AllocError>
    requires { 4 * block + 4 ≤ length rows.now }
    ensures { OnOk result (All (IsWholeIn rows.now block) found.new.items) }
{
    // The call recalls, for the proof, what every list of rows keeps.
    let _ = rows.len();
    found.clear();
    for start in rows.row(4 * block) {
        if is_whole(rows, block, *start) {
            found.push(*start)?;
        }
    }
    Ok(())
}

/// Whether a start at a block's first slice stands at the block's other slices too, each time as many slices later, and ends
/// no earlier than the block.
fn is_whole(rows: &RowList, block: usize, start: Start) -> bool
    requires block { 4 * block + 4 ≤ length rows.now }
    requires start { Contains (row rows.now (4 * block)) start }
    ensures { result ≡ true → IsWholeIn rows.now block start }
{
    // The call recalls, for the proof, what every list of rows keeps.
    let _ = rows.len();
    let first = 4 * block;
    if usize::from(start.after) < first + 4 {
        return false;
    }
    if !has_later(rows.row(first + 1), start, 1) {
        return false;
    }
    if !has_later(rows.row(first + 2), start, 2) {
        return false;
    }
    has_later(rows.row(first + 3), start, 3)
}

/// Whether a row is seen to have the same start so many slices later. The row is to be ordered by place.
fn has_later(row: &[Start], start: Start, slices: u32) -> bool
    ensures { result ≡ true → Contains row.now (later slices start) }
{
    let place = place_in(row, start.place);
    place < row.len() && is_later(row[place], start, slices)
}

/// The single starts of each slice, which stand in none of the whole ones. Fails only for want of memory.
pub(crate) fn singles_of(
    alloc: Global,
    rows: &RowList,
    wholes: &RowList,
) -> Result<RowList, AllocError>
    ensures { IfOk result (λ singles. AreSingles rows.now wholes.now singles (length rows.now)) }
{
    let mut singles = RowList::new(alloc)?;
    let mut found = Vec::new(alloc);
    for slice in 0..rows.len() {
        let whole = wholes.row_or_none(slice / 4);
        list_singles(rows.row(slice), whole, (slice % 4) as u32, &mut found)?;
        singles.push(found.as_slice())?;
    }
    Ok(singles)
}

/// Lists the starts of a row that are seen in none of the whole ones at a slice of their block.
fn list_singles(
    row: &[Start],
    wholes: &[Start],
    slices: u32,
    found: &mut Vec<Start>,
) -> Result<(), AllocError>
    ensures { OnOk result (AreSinglesOf row.now wholes.now slices found.new.items) }
{
    found.clear();
    for start in row {
        if !stands_in(wholes, *start, slices) {
            found.push(*start)?;
        }
    }
    Ok(())
}

/// Whether a start is seen to stand in a whole one at a slice of its block. The whole ones are to be ordered by place.
fn stands_in(wholes: &[Start], start: Start, slices: u32) -> bool
    ensures { result ≡ true → IsWholeAt wholes.now slices start }
{
    let place = place_in(wholes, start.place);
    place < wholes.len() && is_later(start, wholes[place], slices)
}

/// Whether one start is another so many slices later.
fn is_later(start: Start, other: Start, slices: u32) -> bool
    ensures { result ≡ true → start ≡ later slices other }
{
    start.worth == other.worth
        && start.place == other.place
        && u64::from(start.after) == u64::from(other.after) + u64::from(slices)
}

/// The first place in a row, which is ordered by place, of a start whose request has this place or a higher one.
fn place_in(row: &[Start], place: u16) -> usize
    ensures { result ≤ length row.now }
{
    row.partition_point(|start| start.place < place)
}
