// The greatest surplus until each slice.

ghost use Rattle.std.specs.Prelude.{◌≡◌, ◌+◌, ◌<◌, ◌≤◌, pos, length, replicate, All};
ghost use Rattle.plan_base.specs.Limits.{most_slices};
ghost use Rattle.bound_checker.specs.Tables.{IsWeight, IsEntry, DoRowsFit};
ghost use Rattle.explain.specs.Steps.{IsFilledTo, IsFilled, IsRaised};

use bound_checker::Start;
use plan_base::{ListOf, larger};

/// Writes the greatest surplus until each slice, where the rows have the starts at each slice and the table is all 0: an
/// entry is the greatest of the one before it and of what each start gives that ends there. The first one, before all
/// slices, stays 0.
pub(crate) fn fill_until(rows: &[ListOf<Start>], table: &mut [i64])
    requires empty { table.old ≡ replicate (length rows.now + 1) (pos 0) }
    requires rows { length rows.now ≤ most_slices }
    requires fit { DoRowsFit rows.now }
    ensures { IsFilled rows.now table.new }
{
    for slice in 0..rows.len() {
        pass_slice(rows, slice, table);
    }
}

/// Raises the entries that are reached from a slice, whose own entry is as it stays.
fn pass_slice(rows: &[ListOf<Start>], slice: usize, table: &mut [i64])
    requires slice { slice < length rows.now }
    requires rows { length rows.now ≤ most_slices }
    requires fit { DoRowsFit rows.now }
    requires table { IsFilledTo rows.now slice table.old }
    ensures { IsFilledTo rows.now (slice + 1) table.new }
{
    raise(table, slice, slice + 1, 0);
    let row = rows[slice].as_slice();
    for start in row {
        raise(table, slice, start.after, start.weight);
    }
}

/// Raises an entry to what another and a weight give, where that is more.
fn raise(table: &mut [i64], from: usize, to: usize, weight: i64)
    requires from { from < length table.old }
    requires to { to < length table.old }
    requires weight { IsWeight weight }
    requires entries { All IsEntry table.old }
    ensures { IsRaised table.old from to weight table.new }
{
    table[to] = larger(table[to], table[from] + weight);
}
