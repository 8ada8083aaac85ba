// One round of prices.

ghost use Rattle.std.specs.Prelude.{◌≡◌, ◌≤◌, ◌≤ℤ◌, ℕ, ℤ, pos, List, length, slice_index_or, All};
ghost use Rattle.plan_base.specs.Limits.{most_pending};
ghost use Rattle.plan_base.specs.declared.claim.Placement.{Placement};
ghost use Rattle.plan_base.specs.Requests.{listed};
ghost use Rattle.plan_base.specs.Bound.{price, net_price};
ghost use Rattle.plan_base.specs.Verdict.{IsPriceInRange};
ghost use Rattle.plan_base.specs.Round.{demand_of, next_prices, next_quota_prices};
ghost use Rattle.plan_base.specs.NetPrices.{net_prices};
ghost use Rattle.prices.specs.Rounds.{AreUses, step_size, prices_after};
ghost use Rattle.prices.specs.Takings.{AreTaken};

use crate::demands::add_demands;
use crate::moves::{move_prices, move_quota_prices};
use crate::steps::step_size;
use crate::taken::write_taken;
use plan_base::{MOST_PENDING, Prices, QuotaPrices, Snapshot};

/// One round: each price goes up by the step where the request is used more often than its group takes it, down by it
/// where less often, and stays else. What groups take is by net prices, those of the two lists before the call. A quota
/// price goes up by the step over 3,600, rounded down, but at least 1, to at most 200,000, where more seconds are taken
/// in groups that name the quota than the quota has, and down by as much, to at least 0, where fewer are. Where the step
/// is negative, prices go the other way and quota prices by 1. There is one price, one net price and one use for each
/// request and one quota price for each quota, and the prices stay from -10^12 to 10^12.
pub fn advance(
    snapshot: &Snapshot,
    prices: &mut Prices,
    quota_prices: &mut QuotaPrices,
    net: &Prices,
    uses: &[u32],
    step: i64,
)
    requires count { length prices.old.0 ≡ length (listed snapshot.now) }
    requires quotas { length quota_prices.old.0 ≡ length snapshot.now.quotas }
    requires net { net.now.0 ≡ net_prices snapshot.now prices.old.0 quota_prices.old.0 }
    requires uses { length uses.now ≡ length (listed snapshot.now) }
    requires stay { All IsPriceInRange (prices_after snapshot.now step prices.old.0 (net_price snapshot.now prices.old.0 quota_prices.old.0) uses.now) }
    ensures after { prices.new.0 ≡ prices_after snapshot.now step prices.old.0 (net_price snapshot.now prices.old.0 quota_prices.old.0) uses.now }
    ensures next { (starts : List Placement) → pos 0 ≤ℤ step → AreUses snapshot.now starts uses.now
        → prices.new.0 ≡ next_prices snapshot.now (step_size step) prices.old.0 (net_price snapshot.now prices.old.0 quota_prices.old.0) starts }
    ensures quotas { quota_prices.new.0
        ≡ next_quota_prices snapshot.now (step_size step) quota_prices.old.0 (net_price snapshot.now prices.old.0 quota_prices.old.0) }
{
    let taken = taken_flags(snapshot, net.0.as_slice());
    move_prices(&mut prices.0, uses, &taken, step);
    let demands = demands_of(snapshot, &taken);
    let quotas = snapshot.parts().quotas.as_slice();
    move_quota_prices(&mut quota_prices.0, &demands, quotas, step_size(step));
}

/// Whether its group takes each request at the net prices.
fn taken_flags(snapshot: &Snapshot, net: &[i64]) -> [bool; MOST_PENDING]
    requires { length net.now ≡ length (listed snapshot.now) }
    ensures count { length result ≡ most_pending }
    ensures room { length (listed snapshot.now) ≤ most_pending }
    ensures taken { AreTaken snapshot.now (price snapshot.now net.now) result }
{
    snapshot.recall_valid();
    let mut taken = [false; MOST_PENDING];
    write_taken(snapshot, net, &mut taken);
    taken
}

/// How many seconds are taken of each quota.
fn demands_of(snapshot: &Snapshot, taken: &[bool]) -> [u64; MOST_PENDING]
    requires { length (listed snapshot.now) ≤ length taken.now }
    ensures count { length result ≡ most_pending }
    ensures room { length snapshot.now.quotas ≤ most_pending }
    ensures demand { (c : ℕ → ℤ) (q : ℕ) → AreTaken snapshot.now c taken.now → slice_index_or result q 0 ≡ demand_of snapshot.now c q }
{
    snapshot.recall_valid();
    let mut demands = [0; MOST_PENDING];
    add_demands(snapshot, taken, &mut demands);
    demands
}
