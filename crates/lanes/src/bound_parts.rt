// The bound of prices from the bests of the telescopes.

ghost use Rattle.std.specs.Prelude.{◌≡◌, ◌≤◌, ◌*◌, ℕ, ℤ, pos, ◌≤ℤ◌, List, length, All, IfOk};
ghost use Rattle.plan_base.specs.Limits.{most_quota, most_quota_price};
ghost use Rattle.plan_base.specs.Sums.{AreParts};
ghost use Rattle.plan_base.specs.Requests.{listed};
ghost use Rattle.plan_base.specs.Bound.{net_price, IsBest, IsRebate, IsQuotaPart, IsBound};
ghost use Rattle.plan_base.specs.Verdict.{IsPriceInRange};
ghost use Rattle.plan_base.specs.NetPrices.{net_prices, IsNetInRange};
ghost use Rattle.lanes.specs.BoundParts.{IsRoomFor};

use groups::{net, rebate};
use plan_base::{Prices, QuotaPrices, Snapshot, bound_limit, bound_of_parts};
use prices::{lagrangian, zero_prices};
use std::alloc::{AllocError, Global};

/// The parts of a bound, and net prices, for one lane after another.
pub(crate) struct BoundParts {
    pub(crate) net: Prices,
    pub(crate) bests: Vec<i64>,
    rebates: Vec<i64>,
    quotas: Vec<i64>,
}

impl Drop for BoundParts {
    fn drop(self) {
        let Self {
            net: _,
            bests: _,
            rebates: _,
            quotas: _,
        } = self;
    }
}

impl BoundParts {
    /// Room for the parts of a snapshot. Fails only for want of memory.
    pub(crate) fn new(alloc: Global, snapshot: &Snapshot) -> Result<BoundParts, AllocError>
        ensures { IfOk result (λ parts. IsRoomFor snapshot.now parts) }
    {
        let parts = snapshot.parts();
        Ok(BoundParts {
            net: zero_prices(alloc, snapshot.request_count())?,
            bests: vec![in alloc; 0i64; parts.telescopes.len()]?,
            rebates: vec![in alloc; 0i64; parts.groups.len()]?,
            quotas: vec![in alloc; 0i64; parts.quotas.len()]?,
        })
    }

    /// The bound of prices, where the bests are theirs. Net prices are then theirs too.
    pub(crate) fn bound(
        &mut self,
        snapshot: &Snapshot,
        prices: &Prices,
        quota_prices: &QuotaPrices,
    ) -> u64
        requires room { IsRoomFor snapshot.now self.old }
        requires count { length prices.now.0 ≡ length (listed snapshot.now) }
        requires quotas { length quota_prices.now.0 ≡ length snapshot.now.quotas }
        requires range { All IsPriceInRange prices.now.0 }
        requires quota_range { All (λ u. u ≤ most_quota_price) quota_prices.now.0 }
        requires bests { AreParts (length snapshot.now.telescopes) (λ t. IsBest snapshot.now prices.now.0 t snapshot.now.first.0) self.old.bests.items }
        ensures room { IsRoomFor snapshot.now self.new }
        ensures net { self.new.net.0 ≡ net_prices snapshot.now prices.now.0 quota_prices.now.0 }
        ensures bound { IsBound snapshot.now prices.now.0 quota_prices.now.0 (pos result) }
    {
        snapshot.recall_valid();
        net(snapshot, prices, quota_prices, &mut self.net);
        write_rebates(snapshot, &self.net, self.rebates.as_mut_slice());
        write_quotas(snapshot, quota_prices, self.quotas.as_mut_slice());
        bound_of(
            snapshot,
            prices,
            quota_prices,
            self.bests.as_slice(),
            self.rebates.as_slice(),
            self.quotas.as_slice(),
        )
    }
}

/// The bound that its parts add up to.
fn bound_of(
    snapshot: &Snapshot,
    prices: &Prices,
    quota_prices: &QuotaPrices,
    bests: &[i64],
    rebates: &[i64],
    quotas: &[i64],
) -> u64
    requires range { All IsPriceInRange prices.now.0 }
    requires quota_range { All (λ u. u ≤ most_quota_price) quota_prices.now.0 }
    requires bests { AreParts (length snapshot.now.telescopes) (λ t. IsBest snapshot.now prices.now.0 t snapshot.now.first.0) bests.now }
    requires rebates { AreParts (length snapshot.now.groups) (IsRebate snapshot.now (net_price snapshot.now prices.now.0 quota_prices.now.0)) rebates.now }
    requires quotas { AreParts (length snapshot.now.quotas) (IsQuotaPart snapshot.now quota_prices.now.0) quotas.now }
    requires least { All (λ c. pos 0 ≤ℤ c) rebates.now }
    requires quotas_least { All (λ c. pos 0 ≤ℤ c) quotas.now }
    ensures { IsBound snapshot.now prices.now.0 quota_prices.now.0 (pos result) }
{
    snapshot.recall_valid();
    bound_of_parts(snapshot, prices, quota_prices);
    bound_limit(snapshot, prices, quota_prices);
    lagrangian(bests, rebates, quotas)
}

/// Writes what each group gives at net prices.
fn write_rebates(snapshot: &Snapshot, net: &Prices, rebates: &mut [i64])
    requires count { length net.now.0 ≡ length (listed snapshot.now) }
    requires range { All IsNetInRange net.now.0 }
    requires room { length rebates.old ≡ length snapshot.now.groups }
    ensures rebates { (given : List ℤ) (quota_prices : List ℕ) → length given ≡ length (listed snapshot.now)
        → net.now.0 ≡ net_prices snapshot.now given quota_prices
        → AreParts (length snapshot.now.groups) (IsRebate snapshot.now (net_price snapshot.now given quota_prices)) rebates.new }
    ensures least { All (λ c. pos 0 ≤ℤ c) rebates.new }
{
    for group in 0..snapshot.parts().groups.len() {
        rebates[group] = rebate(snapshot, group, net);
    }
}

/// Writes each quota times its price.
fn write_quotas(snapshot: &Snapshot, quota_prices: &QuotaPrices, quotas: &mut [i64])
    requires count { length quota_prices.now.0 ≡ length snapshot.now.quotas }
    requires range { All (λ u. u ≤ most_quota_price) quota_prices.now.0 }
    requires room { length quotas.old ≡ length snapshot.now.quotas }
    ensures parts { AreParts (length snapshot.now.quotas) (IsQuotaPart snapshot.now quota_prices.now.0) quotas.new }
    ensures least { All (λ c. pos 0 ≤ℤ c) quotas.new }
{
    let seconds = snapshot.parts().quotas.as_slice();
    for quota in 0..seconds.len() {
        quotas[quota] = cost_of(quota_prices.0.as_slice()[quota], seconds[quota]);
    }
}

/// What so many seconds cost at a price.
fn cost_of(price: u32, seconds: u64) -> i64
    requires price { price ≤ most_quota_price }
    requires seconds { seconds ≤ most_quota }
    ensures { result ≡ pos (price * seconds) }
{
    i64::from(price) * seconds as i64
}
