// The price of a new request, and the bound with it.

ghost use Rattle.std.specs.Prelude.{◌≡◌, ◌∷◌, ◌++◌, ◌<◌, [], ℤ, pos, ◌+ℤ◌, ◌-ℤ◌, ◌≤ℤ◌, IfOk};
ghost use Rattle.plan_base.specs.Limits.{bound_limit};
ghost use Rattle.plan_base.specs.Bound.{IsBound};
ghost use Rattle.plan_base.specs.Verdict.{IsPriceInRange};
ghost use Rattle.bound_checker.specs.Summed.{IsPartSum};
ghost use Rattle.rapid.specs.Tables.{AreTables, IsPriceable, AreMorePrices};
ghost use Rattle.rapid.specs.Placing.{IsPricedSo};

use crate::tables::{Extension, best_sum, mended_tables};
use bound_checker::rebate_of;
use plan_base::{ListOf, Prices, bound_limit};
use std::alloc::{AllocError, Global};

/// Prices, what each telescope gives at them from each slice of the horizon on, and the bound that they give with the quota
/// prices that stand.
#[derive(Drop)]
pub(crate) struct Pricing {
    /// One for each request, that of the new one at the end.
    pub prices: Prices,
    /// What each telescope gives from each slice of the horizon on.
    pub tables: ListOf<ListOf<i64>>,
    /// The bound.
    pub bound: u64,
}

/// The prices with one more at their end. Fails only for want of memory.
fn with_price(alloc: Global, prices: &Prices, price: i64) -> Result<Prices, AllocError>
    ensures { IfOk result (λ new. new.0 ≡ prices.now.0 ++ price ∷ []) }
{
    let mut list = Vec::from_slice(alloc, prices.0.as_slice())?;
    list.push(price)?;
    Ok(Prices(ListOf::from_vec(list)))
}

/// The bound where the sum of the bests is a new one, and one more group has a rebate.
fn mended_bound(bound: u64, old: i64, new: i64, rebate: i64) -> u64
    requires bound { bound < bound_limit }
    requires old { IsPartSum old }
    requires new { IsPartSum new }
    requires rebate { IsPartSum rebate }
    requires least { pos 0 ≤ℤ (pos bound -ℤ old +ℤ new +ℤ rebate) }
    ensures { pos result ≡ (pos bound -ℤ old +ℤ new +ℤ rebate) }
{
    (bound as i64 - old + new + rebate) as u64
}

/// The bound of these prices, which have these tables: that of the prices before with the bests exchanged, and what the new
/// group gives.
fn bound_with(extension: &Extension, prices: &Prices, tables: &[ListOf<i64>]) -> u64
    requires priceable { IsPriceable extension.now }
    requires prices { (price : ℤ) × AreMorePrices extension.now.claim.now price prices.now.0 }
    requires tables { AreTables extension.now.snapshot.now prices.now.0 tables.now }
    ensures { IsBound extension.now.snapshot.now prices.now.0 extension.now.claim.now.quota_prices.0 (pos result) }
{
    let claim = extension.claim;
    extension.before.recall_valid();
    extension.snapshot.recall_valid();
    bound_limit(extension.before, &claim.prices, &claim.quota_prices);
    bound_limit(extension.snapshot, prices, &claim.quota_prices);
    let old = best_sum(extension.before, &claim.prices, extension.tables);
    let new = best_sum(extension.snapshot, prices, tables);
    let last = extension.snapshot.parts().groups.len() - 1;
    let rebate = rebate_of(extension.snapshot, last, prices, &claim.quota_prices);
    mended_bound(claim.bound, old, new, rebate)
}

/// The prices with this one for the new request, their tables and their bound. Fails only for want of memory.
fn priced(alloc: Global, extension: &Extension, price: i64) -> Result<Pricing, AllocError>
    requires priceable { IsPriceable extension.now }
    requires range { IsPriceInRange price }
    ensures prices { IfOk result (λ p. p.prices.0 ≡ extension.now.claim.now.prices.0 ++ price ∷ []) }
    ensures tables { IfOk result (λ p. AreTables extension.now.snapshot.now p.prices.0 p.tables) }
    ensures bound { IfOk result (λ p. IsBound extension.now.snapshot.now p.prices.0 extension.now.claim.now.quota_prices.0 (pos p.bound)) }
{
    let prices = with_price(alloc, &extension.claim.prices, price)?;
    let tables = mended_tables(alloc, extension, &prices)?;
    let bound = bound_with(extension, &prices, tables.as_slice());
    Ok(Pricing {
        prices,
        tables,
        bound,
    })
}

/// The old prices with one for the new request: 0 where the bound is then below the old one and the request's value
/// together, else the value. Fails only for want of memory.
pub(crate) fn price(alloc: Global, extension: &Extension) -> Result<Pricing, AllocError>
    requires { IsPriceable extension.now }
    ensures { IfOk result (IsPricedSo extension.now.snapshot.now extension.now.claim.now extension.now.request.now.value) }
{
    let claim = extension.claim;
    let value = extension.request.value;
    extension.before.recall_valid();
    extension.snapshot.recall_valid();
    bound_limit(extension.before, &claim.prices, &claim.quota_prices);
    let free = priced(alloc, extension, 0)?;
    if free.bound < claim.bound + u64::from(value) {
        return Ok(free);
    }
    let full = priced(alloc, extension, i64::from(value))?;
    Ok(full)
}
