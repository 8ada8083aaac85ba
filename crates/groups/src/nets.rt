// The prices of requests less what their seconds cost of their quotas.

ghost use Rattle.std.specs.Prelude.{◌≡◌, ◌<◌, ◌≤◌, ◌⊎◌, pos, [], length, slice_index, slice_index_or, All};
ghost use Rattle.plan_base.specs.Limits.{most_seconds};
ghost use Rattle.plan_base.specs.Requests.{listed};
ghost use Rattle.plan_base.specs.Bound.{quota_cost};
ghost use Rattle.plan_base.specs.NetPrices.{IsNetInRange, net_prices};

use plan_base::{Prices, QuotaPrices, Snapshot};

/// Writes the net price of each request in its place: its price less its seconds times the price of the quota of its
/// group, if its group names one. There is one price for each request, the quota prices are one for each quota or
/// none, which stands for all 0, `into` has a number for each request, and each net price lies from -2 * 10^12 to
/// 2 * 10^12.
pub fn net(snapshot: &Snapshot, prices: &Prices, quota_prices: &QuotaPrices, into: &mut Prices)
    requires count { length prices.now.0 ≡ length (listed snapshot.now) }
    requires quotas { (quota_prices.now.0 ≡ []) ⊎ (length quota_prices.now.0 ≡ length snapshot.now.quotas) }
    requires room { length into.old.0 ≡ length (listed snapshot.now) }
    requires range { All IsNetInRange (net_prices snapshot.now prices.now.0 quota_prices.now.0) }
    ensures { into.new.0 ≡ net_prices snapshot.now prices.now.0 quota_prices.now.0 }
{
    for place in 0..snapshot.request_count() {
        into.0
            .set(place, net_at(snapshot, prices, quota_prices, place));
    }
}

/// The net price of the request at a place.
fn net_at(snapshot: &Snapshot, prices: &Prices, quota_prices: &QuotaPrices, place: usize) -> i64
    requires place { place < length (listed snapshot.now) }
    requires count { length prices.now.0 ≡ length (listed snapshot.now) }
    requires range { All IsNetInRange (net_prices snapshot.now prices.now.0 quota_prices.now.0) }
    ensures { result ≡ slice_index_or (net_prices snapshot.now prices.now.0 quota_prices.now.0) place (pos 0) }
{
    let request = snapshot.request_at(place);
    let group = &snapshot.parts().groups.as_slice()[snapshot.group_at(place)];
    prices.0.as_slice()[place] - quota_cost(quota_prices.0.as_slice(), request.seconds, group.quota)
}

/// What so many seconds cost at the price of a quota, if one is named.
fn quota_cost(quota_prices: &[u32], seconds: u32, quota: Option<u16>) -> i64
    requires { seconds ≤ most_seconds }
    ensures { result ≡ pos (quota_cost quota_prices.now seconds quota) }
{
    match quota {
        Some(quota) => i64::from(price_of(quota_prices, usize::from(quota))) * i64::from(seconds),
        None => 0,
    }
}

/// The price of a quota: 0 past the end of the list.
fn price_of(quota_prices: &[u32], quota: usize) -> u32
    ensures { result ≡ slice_index quota_prices.now quota }
{
    quota_prices.get(quota).copied().unwrap_or(0)
}
