// What each telescope gives from each slice on, kept from one insertion to the next.

ghost use Rattle.std.specs.Prelude.{◌≡◌, ◌<◌, ℤ, length, IfOk, All};
ghost use Rattle.plan_base.specs.Requests.{listed};
ghost use Rattle.plan_base.specs.Bound.{IsBest};
ghost use Rattle.plan_base.specs.Verdict.{IsPriceInRange};
ghost use Rattle.bound_checker.specs.Summed.{IsSummed};
ghost use Rattle.openings.specs.Openings.{AreOpenings};
ghost use Rattle.rapid.specs.Tables.{IsTableOf, AreTables, IsPriceable, AreMorePrices};

use crate::raising::raises;
use bound_checker::{fill_table, starts_of};
use openings::{Openings, openings_of};
use plan_base::{Claim, ListOf, Prices, RequestPart, Snapshot, Sum, TelescopeNo, repeated};
use std::alloc::{AllocError, Global};

/// A snapshot with one more request than the one before.
#[derive(Clone, Copy)]
pub(crate) struct Extension<'a> {
    /// The snapshot without the request.
    pub before: &'a Snapshot,
    /// The claim on that.
    pub claim: &'a Claim,
    /// The table of each telescope there, at the claim's prices.
    pub tables: &'a [ListOf<i64>],
    /// The snapshot with the request at its end.
    pub snapshot: &'a Snapshot,
    /// The request.
    pub request: &'a RequestPart,
}

/// What a telescope gives at prices from each slice of the horizon on, and 0 for the slice after it. Fails only for want of
/// memory.
fn table_of(
    alloc: Global,
    snapshot: &Snapshot,
    telescope: TelescopeNo,
    prices: &Prices,
) -> Result<ListOf<i64>, AllocError>
    requires telescope { telescope.0 < length snapshot.now.telescopes }
    requires count { length prices.now.0 ≡ length (listed snapshot.now) }
    requires range { All IsPriceInRange prices.now.0 }
    ensures { IfOk result (IsTableOf snapshot.now prices.now.0 telescope.0) }
{
    snapshot.recall_valid();
    let rows = starts_of(alloc, snapshot, telescope, prices)?;
    let mut table = repeated(alloc, 0, rows.len() + 1)?;
    fill_table(rows.as_slice(), table.as_mut_slice());
    Ok(ListOf::from_vec(table))
}

/// The tables of all telescopes at prices. Fails only for want of memory.
pub(crate) fn tables_of(
    alloc: Global,
    snapshot: &Snapshot,
    prices: &Prices,
) -> Result<ListOf<ListOf<i64>>, AllocError>
    requires count { length prices.now.0 ≡ length (listed snapshot.now) }
    requires range { All IsPriceInRange prices.now.0 }
    ensures { IfOk result (AreTables snapshot.now prices.now.0) }
{
    let mut tables = Vec::new(alloc);
    for telescope in 0..snapshot.parts().telescopes.len() {
        snapshot.recall_valid();
        let table = table_of(alloc, snapshot, TelescopeNo(telescope as u16), prices)?;
        tables.push(table)?;
    }
    Ok(ListOf::from_vec(tables))
}

/// The sum of the bests of all telescopes, which stand first in their tables.
pub(crate) fn best_sum(snapshot: &Snapshot, prices: &Prices, tables: &[ListOf<i64>]) -> i64
    requires range { All IsPriceInRange prices.now.0 }
    requires tables { AreTables snapshot.now prices.now.0 tables.now }
    ensures { IsSummed (length snapshot.now.telescopes) (λ t. IsBest snapshot.now prices.now.0 t snapshot.now.first.0) 1440414720000000 result }
{
    snapshot.recall_valid();
    let mut sum = Sum { value: 0 };
    for telescope in 0..tables.len() {
        sum.value += first_entry(snapshot, prices, tables, telescope);
    }
    sum.value
}

/// The best of a telescope.
fn first_entry(
    snapshot: &Snapshot,
    prices: &Prices,
    tables: &[ListOf<i64>],
    telescope: usize,
) -> i64
    requires range { All IsPriceInRange prices.now.0 }
    requires tables { AreTables snapshot.now prices.now.0 tables.now }
    requires telescope { telescope < length snapshot.now.telescopes }
    ensures { IsBest snapshot.now prices.now.0 telescope snapshot.now.first.0 result }
{
    snapshot.recall_valid();
    tables[telescope].as_slice()[0]
}

/// The table of a telescope at prices with one more for the new request: the one before, where no start of the request gives more
/// than it has. Fails only for want of memory.
fn mended_table(
    alloc: Global,
    extension: &Extension,
    prices: &Prices,
    openings: &Openings,
    telescope: TelescopeNo,
) -> Result<ListOf<i64>, AllocError>
    requires priceable { IsPriceable extension.now }
    requires prices { (price : ℤ) × AreMorePrices extension.now.claim.now price prices.now.0 }
    requires openings { AreOpenings extension.now.snapshot.now prices.now.0 openings.now }
    requires request { openings.now.request ≡ extension.now.request.now.request }
    requires telescope { telescope.0 < length extension.now.snapshot.now.telescopes }
    ensures { IfOk result (IsTableOf extension.now.snapshot.now prices.now.0 telescope.0) }
{
    extension.before.recall_valid();
    extension.snapshot.recall_valid();
    let table = extension.tables[usize::from(telescope.0)].as_slice();
    if raises(extension.snapshot, prices, openings, telescope, table) {
        return table_of(alloc, extension.snapshot, telescope, prices);
    }
    let table = Vec::from_slice(alloc, table)?;
    Ok(ListOf::from_vec(table))
}

/// The tables of all telescopes at prices with one more for the new request. Fails only for want of memory.
pub(crate) fn mended_tables(
    alloc: Global,
    extension: &Extension,
    prices: &Prices,
) -> Result<ListOf<ListOf<i64>>, AllocError>
    requires priceable { IsPriceable extension.now }
    requires prices { (price : ℤ) × AreMorePrices extension.now.claim.now price prices.now.0 }
    ensures { IfOk result (AreTables extension.now.snapshot.now prices.now.0) }
{
    extension.before.recall_valid();
    extension.snapshot.recall_valid();
    let openings = openings_of(alloc, extension.snapshot, prices, extension.request.request)?;
    let mut tables = Vec::new(alloc);
    for telescope in 0..extension.snapshot.parts().telescopes.len() {
        extension.snapshot.recall_valid();
        let number = TelescopeNo(telescope as u16);
        tables.push(mended_table(alloc, extension, prices, &openings, number)?)?;
    }
    Ok(ListOf::from_vec(tables))
}
