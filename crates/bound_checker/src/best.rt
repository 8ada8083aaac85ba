// The greatest surplus of a telescope.

ghost use Rattle.std.specs.Prelude.{◌≡◌, ◌<◌, length, All, IfOk};
ghost use Rattle.plan_base.specs.Requests.{listed};
ghost use Rattle.plan_base.specs.Verdict.{IsPriceInRange};
ghost use Rattle.plan_base.specs.Bound.{IsBest};

use crate::starts::starts_of;
use crate::table::fill_table;
use plan_base::{Prices, Snapshot, TelescopeNo, repeated};
use std::alloc::{AllocError, Global};

/// The greatest sum, over all lists of possible starts of a telescope of which no two share a slice, of what the
/// starts are worth less the prices of their requests. A request may stand in a list more than once, and the empty
/// list is one, so the sum is not negative. The telescope is one of the snapshot's, and there is one price for each
/// request, from -10^12 to 10^12. Fails only for want of memory.
///
/// One backward pass over the slices finds it. It costs time for the windows, the spans and the possible starts of the
/// telescope.
pub fn best_of(
    alloc: Global,
    snapshot: &Snapshot,
    telescope: TelescopeNo,
    prices: &Prices,
) -> Result<i64, AllocError>
    requires telescope { telescope.0 < length snapshot.now.telescopes }
    requires count { length prices.now.0 ≡ length (listed snapshot.now) }
    requires range { All IsPriceInRange prices.now.0 }
    ensures { IfOk result (λ best. IsBest snapshot.now prices.now.0 telescope.0 snapshot.now.first.0 best) }
{
    snapshot.recall_valid();
    let rows = starts_of(alloc, snapshot, telescope, prices)?;
    let mut table = repeated(alloc, 0, rows.len() + 1)?;
    Ok(fill_table(rows.as_slice(), table.as_mut_slice()))
}
