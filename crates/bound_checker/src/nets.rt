// The net prices of a group's requests, and sums of them.

ghost use Rattle.std.specs.Prelude.{◌≡◌, ◌+◌, ◌*◌, ◌<◌, ◌≤◌, pos, length, map, take, drop, slice_index_or, All};
ghost use Rattle.plan_base.specs.Limits.{most_quota_price, most_seconds};
ghost use Rattle.plan_base.specs.Requests.{listed, members};
ghost use Rattle.plan_base.specs.Bound.{net_price};
ghost use Rattle.plan_base.specs.Verdict.{IsPriceInRange};
ghost use Rattle.plan_base.specs.NetPrices.{IsNetInRange, positive, positive_sum, price_sum, IsGreatestPrice};
ghost use Rattle.bound_checker.specs.Nets.{IsNets, net_list, price_of};

use plan_base::{Prices, QuotaPrices, RequestPart, Snapshot, Sum, larger};

/// The requests of a group with their prices, and the price of a second of the group's quota.
#[derive(Clone, Copy)]
pub(crate) struct Nets<'a> {
    /// All requests of the group.
    pub requests: &'a [RequestPart],
    /// Their prices, in their order.
    pub prices: &'a [i64],
    /// 0 to 200,000, and 0 where the group counts towards no quota.
    pub quota_price: u32,
}

/// The net prices of the group at a place.
pub(crate) fn nets_of<'a>(
    snapshot: &'a Snapshot,
    group: usize,
    prices: &'a Prices,
    quota_prices: &QuotaPrices,
) -> Nets<'a>
    requires group { group < length snapshot.now.groups }
    requires count { length prices.now.0 ≡ length (listed snapshot.now) }
    requires range { All IsPriceInRange prices.now.0 }
    requires quota_range { All (λ u. u ≤ most_quota_price) quota_prices.now.0 }
    ensures valid { IsNets result }
    ensures value { net_list result ≡ map (net_price snapshot.now prices.now.0 quota_prices.now.0) (members snapshot.now group) }
{
    let part = &snapshot.parts().groups.as_slice()[group];
    let requests = part.requests.as_slice();
    let first = snapshot.known_place(requests[0].request);
    Nets {
        requests,
        prices: prices_from(prices, first, requests.len()),
        quota_price: price_of(quota_prices.0.as_slice(), part.quota),
    }
}

/// So many prices from a place on.
fn prices_from(prices: &Prices, first: usize, count: usize) -> &[i64]
    requires { first + count ≤ length prices.now.0 }
    ensures { result.now ≡ take count (drop first prices.now.0) }
{
    let prices = prices.0.as_slice();
    &prices[first..first + count]
}

/// The price of a second of a quota: 0 past the end of the list, or where no quota is named.
pub fn price_of(quota_prices: &[u32], quota: Option<u16>) -> u32
    requires { All (λ u. u ≤ most_quota_price) quota_prices.now }
    ensures value { result ≡ price_of quota_prices.now quota }
    ensures most { result ≤ most_quota_price }
{
    match quota {
        Some(quota) => price_at(quota_prices, usize::from(quota)),
        None => 0,
    }
}

/// The price of a second of the quota at a place: 0 past the end of the list.
pub(crate) fn price_at(quota_prices: &[u32], quota: usize) -> u32
    requires { All (λ u. u ≤ most_quota_price) quota_prices.now }
    ensures value { result ≡ slice_index_or quota_prices.now quota 0 }
    ensures most { result ≤ most_quota_price }
{
    quota_prices.get(quota).copied().unwrap_or(0)
}

/// The net price of the request at a place in the group.
fn net_at(nets: &Nets, place: usize) -> i64
    requires valid { IsNets nets.now }
    requires place { place < length nets.now.requests.now }
    ensures value { result ≡ slice_index_or (net_list nets.now) place (pos 0) }
    ensures range { IsNetInRange result }
{
    nets.prices[place] - cost_of(nets.quota_price, nets.requests[place].seconds)
}

/// What so many seconds cost at a price.
pub fn cost_of(quota_price: u32, seconds: u32) -> i64
    requires price { quota_price ≤ most_quota_price }
    requires seconds { seconds ≤ most_seconds }
    ensures { result ≡ pos (quota_price * seconds) }
{
    i64::from(quota_price) * i64::from(seconds)
}

/// The sum of all net prices.
pub(crate) fn net_sum(nets: &Nets) -> i64
    requires { IsNets nets.now }
    ensures { result ≡ price_sum (net_list nets.now) }
{
    let mut sum = Sum { value: 0 };
    for place in 0..nets.requests.len() {
        sum.value += net_at(nets, place);
    }
    sum.value
}

/// The sum of the net prices that are above 0.
pub(crate) fn positive_sum(nets: &Nets) -> i64
    requires { IsNets nets.now }
    ensures { result ≡ positive_sum (net_list nets.now) }
{
    let mut sum = Sum { value: 0 };
    for place in 0..nets.requests.len() {
        sum.value += positive(net_at(nets, place));
    }
    sum.value
}

/// The greatest net price, or 0 where none is above 0.
pub(crate) fn greatest_net(nets: &Nets) -> i64
    requires { IsNets nets.now }
    ensures { IsGreatestPrice (net_list nets.now) result }
{
    let mut greatest = Sum { value: 0 };
    for place in 0..nets.requests.len() {
        greatest.value = larger(greatest.value, net_at(nets, place));
    }
    greatest.value
}

/// The number where it is above 0, else 0.
pub(crate) fn positive(net: i64) -> i64
    ensures { result ≡ positive net }
{
    if net > 0 { net } else { 0 }
}
