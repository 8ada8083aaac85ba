// The greatest surplus from each slice on.

ghost use Rattle.std.specs.Prelude.{◌≡◌, ◌+◌, ◌<◌, ◌≤◌, ◌⊎◌, ℤ, pos, ◌≤ℤ◌, length, replicate, All, Contains};
ghost use Rattle.plan_base.specs.Limits.{most_slices};
ghost use Rattle.plan_base.specs.Tables.{entry};
ghost use Rattle.bound_checker.specs.Tables.{IsWeight, IsEntry, gain, DoRowsFit, IsRecursion};

use plan_base::{ListOf, larger};

/// A possible start, in the row of its slice.
#[derive(Clone, Copy)]
pub struct Start {
    /// What it is worth beyond its request's price: at least -10^12, and at most 288,000,000 above 10^12.
    pub weight: i64,
    /// The row of the slice after its last.
    pub after: usize,
}

/// The greatest number so far, as a field for the same reason as a sum is.
#[derive(Clone, Copy)]
struct Greatest {
    value: i64,
}

/// Writes the greatest surplus from each slice on, where the rows have the starts at each slice: an entry is the
/// greatest of the next one and of what each start in its row gives. The last one, after all slices, is 0. The first one
/// is the answer.
pub fn fill_table(rows: &[ListOf<Start>], table: &mut [i64]) -> i64
    requires entries { length table.old ≡ length rows.now + 1 }
    requires rows { length rows.now ≤ most_slices }
    requires fit { DoRowsFit rows.now }
    ensures recursion { IsRecursion rows.now table.new }
    ensures first { result ≡ entry table.new 0 }
{
    clear(table);
    for slice in (0..rows.len()).rev() {
        table[slice] = row_best(rows[slice].as_slice(), table, table[slice + 1]);
    }
    table[0]
}

/// Writes 0 into each entry.
fn clear(table: &mut [i64])
    ensures { table.new ≡ replicate (length table.old) (pos 0) }
{
    table.fill(0);
}

/// The greatest of `least` and of what each start in a row gives.
fn row_best(row: &[Start], table: &[i64], least: i64) -> i64
    requires weights { All (λ x. IsWeight x.weight) row.now }
    requires afters { All (λ x. x.after < length table.now) row.now }
    requires entries { All IsEntry table.now }
    ensures least { least ≤ℤ result }
    ensures each { All (λ x. gain table.now x ≤ℤ result) row.now }
    ensures reached { (result ≡ least) ⊎ ((x : _) × Contains row.now x × (result ≡ gain table.now x)) }
{
    let mut greatest = Greatest { value: least };
    for start in row {
        greatest.value = larger(greatest.value, gain_of(*start, table));
    }
    greatest.value
}

/// What a start gives: its weight, and the greatest surplus from the slice after its last on.
fn gain_of(start: Start, table: &[i64]) -> i64
    requires weight { IsWeight start.weight }
    requires after { start.after < length table.now }
    requires entries { All IsEntry table.now }
    ensures { result ≡ gain table.now start }
{
    start.weight + table[start.after]
}
