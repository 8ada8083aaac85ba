// What a group gives at net prices, and which of its requests it takes.

ghost use Rattle.std.specs.Prelude.{◌≡◌, ◌<◌, ◌≤◌, ℕ, ℤ, pos, ◌≤ℤ◌, List, length, slice_index, All};
ghost use Rattle.plan_base.specs.Limits.{most_members};
ghost use Rattle.plan_base.specs.Requests.{listed, members};
ghost use Rattle.plan_base.specs.Bound.{price, net_price, IsRebate};
ghost use Rattle.plan_base.specs.Round.{is_taken};
ghost use Rattle.plan_base.specs.NetPrices.{IsNetInRange, group_prices, net_prices, IsGroupRun};

use crate::sums::{greatest_price, positive, positive_sum, price_sum};
use crate::taking::Taking;
use plan_base::{Op, Prices, Snapshot};

/// The greatest sum of net prices over all choices that the kind of the group at this place allows. There is one net
/// price for each request, from -2 * 10^12 to 2 * 10^12. The rebate is never negative.
pub fn rebate(snapshot: &Snapshot, group: usize, prices: &Prices) -> i64
    requires group { group < length snapshot.now.groups }
    requires count { length prices.now.0 ≡ length (listed snapshot.now) }
    requires range { All IsNetInRange prices.now.0 }
    ensures rebate { IsRebate snapshot.now (price snapshot.now prices.now.0) group result }
    ensures at_net { (given : List ℤ) (quota_prices : List ℕ) → length given ≡ length (listed snapshot.now)
        → prices.now.0 ≡ net_prices snapshot.now given quota_prices → IsRebate snapshot.now (net_price snapshot.now given quota_prices) group result }
    ensures least { pos 0 ≤ℤ result }
{
    let op = snapshot.parts().groups.as_slice()[group].op;
    let prices = prices_of_group(snapshot, group, prices);
    match op {
        Op::Single | Op::Many => positive_sum(prices),
        Op::OneOf => greatest_price(prices),
        Op::And => positive(price_sum(prices)),
    }
}

/// Whether the group at this place takes the request at a place among its own, as [`Taking`] says. There is one net
/// price for each request, from -2 * 10^12 to 2 * 10^12.
pub fn choice(snapshot: &Snapshot, group: usize, prices: &Prices, member: usize) -> bool
    requires group { group < length snapshot.now.groups }
    requires member { member < length (members snapshot.now group) }
    requires count { length prices.now.0 ≡ length (listed snapshot.now) }
    requires range { All IsNetInRange prices.now.0 }
    ensures { result ≡ is_taken snapshot.now (price snapshot.now prices.now.0) (slice_index (members snapshot.now group) member) }
{
    let op = snapshot.parts().groups.as_slice()[group].op;
    let prices = prices_of_group(snapshot, group, prices);
    Taking::at(op, prices).takes(prices[member], member)
}

/// The prices of the requests of the group at this place: they stand side by side.
fn prices_of_group<'a>(snapshot: &Snapshot, group: usize, prices: &'a Prices) -> &'a [i64]
    requires group { group < length snapshot.now.groups }
    requires count { length prices.now.0 ≡ length (listed snapshot.now) }
    requires range { All IsNetInRange prices.now.0 }
    ensures value { result.now ≡ group_prices snapshot.now prices.now.0 group }
    ensures range { All IsNetInRange result.now }
    ensures few { length result.now ≤ most_members }
{
    let count = member_count(snapshot, group);
    let first = first_place(snapshot, group);
    let prices = prices.0.as_slice();
    &prices[first..first + count]
}

/// How many requests the group at this place has: 1 to 256.
pub fn member_count(snapshot: &Snapshot, group: usize) -> usize
    requires { group < length snapshot.now.groups }
    ensures value { result ≡ length (members snapshot.now group) }
    ensures some { 0 < result }
    ensures few { result ≤ most_members }
{
    snapshot.parts().groups.as_slice()[group].requests.len()
}

/// The place of the first request of the group at this place.
fn first_place(snapshot: &Snapshot, group: usize) -> usize
    requires { group < length snapshot.now.groups }
    ensures { IsGroupRun snapshot.now group result }
{
    let requests = snapshot.parts().groups.as_slice()[group]
        .requests
        .as_slice();
    snapshot.known_place(requests[0].request)
}
