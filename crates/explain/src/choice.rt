// What a group gives at net prices where one of its requests is taken.

ghost use Rattle.std.specs.Prelude.{◌≡◌, ◌⊎◌, ◌<◌, ◌≤◌, pos, neg_ℤ, ◌≤ℤ◌, length, map, All};
ghost use Rattle.plan_base.specs.Limits.{most_quota_price};
ghost use Rattle.plan_base.specs.Requests.{listed, members, group_of, IsKnown};
ghost use Rattle.plan_base.specs.Bound.{net_price};
ghost use Rattle.plan_base.specs.NetPrices.{IsNetInRange, price_sum};
ghost use Rattle.plan_base.specs.Verdict.{IsPriceInRange};
ghost use Rattle.explain.specs.Choice.{IsRebateWith};

use bound_checker::{cost_of, known_group, known_quota, price_of, rebate_of, request_of};
use plan_base::{Op, Prices, QuotaPrices, RequestNo, Snapshot, Sum};

/// The greatest sum of net prices over the choices that the kind of a request's group allows and that have the request.
pub(crate) fn rebate_with(
    snapshot: &Snapshot,
    request: RequestNo,
    prices: &Prices,
    quota_prices: &QuotaPrices,
) -> i64
    requires request { IsKnown snapshot.now request.0 }
    requires count { length prices.now.0 ≡ length (listed snapshot.now) }
    requires range { All IsPriceInRange prices.now.0 }
    requires quota_range { All (λ u. u ≤ most_quota_price) quota_prices.now.0 }
    ensures value { IsRebateWith snapshot.now (net_price snapshot.now prices.now.0 quota_prices.now.0) (group_of snapshot.now request.0) request.0 result }
    ensures least { neg_ℤ (pos 1000000000000000) ≤ℤ result }
    ensures most { result ≤ℤ pos 2000000000000000 }
{
    snapshot.recall_valid();
    let group = known_group(snapshot, request);
    let net = net_of(snapshot, request, prices, quota_prices);
    match snapshot.parts().groups.as_slice()[group].op {
        Op::Single | Op::Many => rebate_of(snapshot, group, prices, quota_prices) + loss_of(net),
        Op::OneOf => net,
        Op::And => group_sum(snapshot, group, prices, quota_prices),
    }
}

/// The number where it is below 0, else 0.
fn loss_of(net: i64) -> i64
    ensures { ((result ≡ net) × (net ≤ℤ pos 0)) ⊎ ((result ≡ pos 0) × (pos 0 ≤ℤ net)) }
{
    if net < 0 { net } else { 0 }
}

/// The sum of the net prices of all requests of a group.
fn group_sum(snapshot: &Snapshot, group: usize, prices: &Prices, quota_prices: &QuotaPrices) -> i64
    requires group { group < length snapshot.now.groups }
    requires count { length prices.now.0 ≡ length (listed snapshot.now) }
    requires range { All IsPriceInRange prices.now.0 }
    requires quota_range { All (λ u. u ≤ most_quota_price) quota_prices.now.0 }
    ensures value { result ≡ price_sum (map (net_price snapshot.now prices.now.0 quota_prices.now.0) (members snapshot.now group)) }
    ensures least { neg_ℤ (pos 512000000000000) ≤ℤ result }
    ensures most { result ≤ℤ pos 512000000000000 }
{
    let part = &snapshot.parts().groups.as_slice()[group];
    let mut sum = Sum { value: 0 };
    for request in part.requests.as_slice() {
        sum.value += net_of(snapshot, request.request, prices, quota_prices);
    }
    sum.value
}

/// The net price of a request.
fn net_of(
    snapshot: &Snapshot,
    request: RequestNo,
    prices: &Prices,
    quota_prices: &QuotaPrices,
) -> i64
    requires request { IsKnown snapshot.now request.0 }
    requires count { length prices.now.0 ≡ length (listed snapshot.now) }
    requires range { All IsPriceInRange prices.now.0 }
    requires quota_range { All (λ u. u ≤ most_quota_price) quota_prices.now.0 }
    ensures value { result ≡ net_price snapshot.now prices.now.0 quota_prices.now.0 request.0 }
    ensures range { IsNetInRange result }
{
    snapshot.recall_valid();
    let seconds = request_of(snapshot, request).seconds;
    let quota = known_quota(snapshot, request);
    let price = prices.0.as_slice()[snapshot.known_place(request)];
    price - cost_of(price_of(quota_prices.0.as_slice(), quota), seconds)
}
