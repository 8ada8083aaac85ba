// Tables with a number for each lane.

ghost use Rattle.std.specs.Prelude.{◌≡◌, pos, length, All, IfOk};
ghost use Rattle.interval_solver.specs.Tables.{IsEntry};
ghost use Rattle.interval_solver.specs.Lanes.{IsForLanes};

use std::alloc::{AllocError, Global};

/// A table of so many zeros for each lane. Fails only for want of memory.
pub fn zero_table<const L: usize>(
    alloc: Global,
    entries: usize,
) -> Result<Vec<[i64; L]>, AllocError>
    ensures count { IfOk result (λ table. length table.items ≡ entries) }
    ensures zeros { IfOk result (λ table. All (IsForLanes L (λ n. n ≡ pos 0)) table.items) }
    ensures entries { IfOk result (λ table. All (IsForLanes L IsEntry) table.items) }
{
    let mut table = Vec::with_capacity(alloc, entries)?;
    let zero = [0; L];
    for _ in 0..entries {
        table.push(zero)?;
    }
    Ok(table)
}
