// The bound that prices give.

ghost use Rattle.std.specs.Prelude.{◌≡◌, ◌*◌, ◌<◌, ◌≤◌, pos, ◌+ℤ◌, ◌≤ℤ◌, length, All, IfOk};
ghost use Rattle.plan_base.specs.Limits.{most_quota, most_quota_price};
ghost use Rattle.plan_base.specs.Requests.{listed};
ghost use Rattle.plan_base.specs.Bound.{IsBest, net_price, IsRebate, IsQuotaPart, IsBound};
ghost use Rattle.plan_base.specs.Verdict.{IsPriceInRange};
ghost use Rattle.bound_checker.specs.Summed.{IsSummed, IsPartSum};

use crate::best::best_of;
use crate::nets::price_at;
use crate::rebate::rebate_of;
use plan_base::{Prices, QuotaPrices, Snapshot, Sum, TelescopeNo};
use std::alloc::{AllocError, Global};

/// The Lagrangian dual bound: the sum of the bests of all telescopes, the rebates of all groups, and the quotas at
/// their prices. No plan that is feasible for the snapshot is worth more. There is one price for each request, from
/// -10^12 to 10^12, and no quota price is above 200,000; what is missing in the list of quota prices stands for 0. Fails
/// only for want of memory.
pub fn bound_of(
    alloc: Global,
    snapshot: &Snapshot,
    prices: &Prices,
    quota_prices: &QuotaPrices,
) -> Result<u64, AllocError>
    requires count { length prices.now.0 ≡ length (listed snapshot.now) }
    requires range { All IsPriceInRange prices.now.0 }
    requires quota_range { All (λ u. u ≤ most_quota_price) quota_prices.now.0 }
    ensures { IfOk result (λ bound. IsBound snapshot.now prices.now.0 quota_prices.now.0 (pos bound)) }
{
    snapshot.recall_valid();
    let bests = best_sum(alloc, snapshot, prices)?;
    let rebates = rebate_sum(snapshot, prices, quota_prices);
    let quotas = quota_sum(snapshot, quota_prices);
    Ok(sum_of(bests, rebates, quotas))
}

/// The sum of three numbers that aren't negative.
fn sum_of(bests: i64, rebates: i64, quotas: i64) -> u64
    requires bests { IsPartSum bests }
    requires rebates { IsPartSum rebates }
    requires quotas { IsPartSum quotas }
    ensures { pos result ≡ bests +ℤ rebates +ℤ quotas }
{
    (bests + rebates + quotas) as u64
}

/// The sum of the bests of all telescopes.
fn best_sum(alloc: Global, snapshot: &Snapshot, prices: &Prices) -> Result<i64, AllocError>
    requires count { length prices.now.0 ≡ length (listed snapshot.now) }
    requires range { All IsPriceInRange prices.now.0 }
    ensures { IfOk result (λ sum. IsSummed (length snapshot.now.telescopes)
        (λ t. IsBest snapshot.now prices.now.0 t snapshot.now.first.0) 1440414720000000 sum) }
{
    let mut sum = Sum { value: 0 };
    for telescope in 0..snapshot.parts().telescopes.len() {
        snapshot.recall_valid();
        let best = best_of(alloc, snapshot, TelescopeNo(telescope as u16), prices)?;
        sum.value += best;
    }
    Ok(sum.value)
}

/// The sum of the rebates of all groups, from 0 to 1,048,576,000,000,000,000. There is one price for each request, from
/// -10^12 to 10^12, and no quota price is above 200,000; what is missing in the list of quota prices stands for 0.
pub fn rebate_sum(snapshot: &Snapshot, prices: &Prices, quota_prices: &QuotaPrices) -> i64
    requires count { length prices.now.0 ≡ length (listed snapshot.now) }
    requires range { All IsPriceInRange prices.now.0 }
    requires quota_range { All (λ u. u ≤ most_quota_price) quota_prices.now.0 }
    ensures { IsSummed (length snapshot.now.groups) (IsRebate snapshot.now (net_price snapshot.now prices.now.0 quota_prices.now.0)) 1024000000000000 result }
{
    let mut sum = Sum { value: 0 };
    for group in 0..snapshot.parts().groups.len() {
        snapshot.recall_valid();
        sum.value += rebate_of(snapshot, group, prices, quota_prices);
    }
    sum.value
}

/// The sum of the quotas at their prices.
fn quota_sum(snapshot: &Snapshot, quota_prices: &QuotaPrices) -> i64
    requires quota_range { All (λ u. u ≤ most_quota_price) quota_prices.now.0 }
    ensures { IsSummed (length snapshot.now.quotas) (IsQuotaPart snapshot.now quota_prices.now.0) 20000000000000 result }
{
    let mut sum = Sum { value: 0 };
    for quota in 0..snapshot.parts().quotas.len() {
        sum.value += quota_part(snapshot, quota_prices, quota);
    }
    sum.value
}

/// A quota at its price.
fn quota_part(snapshot: &Snapshot, quota_prices: &QuotaPrices, quota: usize) -> i64
    requires quota { quota < length snapshot.now.quotas }
    requires quota_range { All (λ u. u ≤ most_quota_price) quota_prices.now.0 }
    ensures part { IsQuotaPart snapshot.now quota_prices.now.0 quota result }
    ensures most { result ≤ℤ pos 20000000000000 }
{
    let seconds = snapshot.parts().quotas.as_slice()[quota];
    quota_cost(price_at(quota_prices.0.as_slice(), quota), seconds)
}

/// What a quota of so many seconds costs at a price.
fn quota_cost(price: u32, seconds: u64) -> i64
    requires price { price ≤ most_quota_price }
    requires seconds { seconds ≤ most_quota }
    ensures value { result ≡ pos (price * seconds) }
    ensures most { result ≤ℤ pos 20000000000000 }
{
    i64::from(price) * seconds as i64
}
