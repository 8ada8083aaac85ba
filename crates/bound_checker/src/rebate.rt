// What a group gives at net prices.

ghost use Rattle.std.specs.Prelude.{◌≡◌, ◌<◌, ◌≤◌, length, All};
ghost use Rattle.plan_base.specs.Limits.{most_quota_price};
ghost use Rattle.plan_base.specs.Requests.{listed};
ghost use Rattle.plan_base.specs.Bound.{net_price, IsRebate};
ghost use Rattle.plan_base.specs.Verdict.{IsPriceInRange};

use crate::nets::{greatest_net, net_sum, nets_of, positive, positive_sum};
use plan_base::{Op, Prices, QuotaPrices, Snapshot};

/// The greatest sum of net prices over all choices that the kind of the group at a place allows: it is never negative.
/// A net price is a request's price less its seconds times the price of the quota that its group names, if it names
/// one. There is one price for each request, from -10^12 to 10^12, and no quota price is above 200,000; what is missing
/// in the list of quota prices stands for 0. It takes no memory, and time for the requests of the group.
pub fn rebate_of(
    snapshot: &Snapshot,
    group: usize,
    prices: &Prices,
    quota_prices: &QuotaPrices,
) -> i64
    requires group { group < length snapshot.now.groups }
    requires count { length prices.now.0 ≡ length (listed snapshot.now) }
    requires range { All IsPriceInRange prices.now.0 }
    requires quota_range { All (λ u. u ≤ most_quota_price) quota_prices.now.0 }
    ensures { IsRebate snapshot.now (net_price snapshot.now prices.now.0 quota_prices.now.0) group result }
{
    let op = snapshot.parts().groups.as_slice()[group].op;
    let nets = nets_of(snapshot, group, prices, quota_prices);
    match op {
        Op::Single | Op::Many => positive_sum(&nets),
        Op::OneOf => greatest_net(&nets),
        Op::And => positive(net_sum(&nets)),
    }
}
