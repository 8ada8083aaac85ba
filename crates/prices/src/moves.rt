// How prices move in a round.

ghost use Rattle.std.specs.Prelude.{◌≡◌, ◌≤◌, ◌<◌, ◌^◌, ℕ, pos, false, length, slice_index_or, slice_set};
ghost use Rattle.plan_base.specs.Verdict.{IsPriceInRange};
ghost use Rattle.plan_base.specs.Round.{moved_quota_price};
ghost use Rattle.prices.specs.Rounds.{stepped_price};

use crate::steps::quota_step;
use plan_base::{ListOf, MOST_QUOTA_PRICE};

/// Moves each price by the step, up where its request is used more often than it is taken, down where less often.
pub(crate) fn move_prices(prices: &mut ListOf<i64>, uses: &[u32], taken: &[bool], step: i64)
    requires uses { length uses.now ≡ length prices.old }
    requires taken { length prices.old ≤ length taken.now }
    requires stay { (i : ℕ) → i < length prices.old
        → IsPriceInRange (stepped_price step (slice_index_or prices.old i (pos 0)) (slice_index_or uses.now i 0) (slice_index_or taken.now i false)) }
    ensures count { length prices.new ≡ length prices.old }
    ensures moved { (i : ℕ) → i < length prices.old
        → slice_index_or prices.new i (pos 0)
        ≡ stepped_price step (slice_index_or prices.old i (pos 0)) (slice_index_or uses.now i 0) (slice_index_or taken.now i false) }
{
    for place in 0..prices.len() {
        move_price(prices, place, uses[place], taken[place], step);
    }
}

/// Moves the price at a place.
fn move_price(prices: &mut ListOf<i64>, place: usize, uses: u32, taken: bool, step: i64)
    requires place { place < length prices.old }
    requires stay { IsPriceInRange (stepped_price step (slice_index_or prices.old place (pos 0)) uses taken) }
    ensures { prices.new ≡ slice_set prices.old place (stepped_price step (slice_index_or prices.old place (pos 0)) uses taken) }
{
    let price = prices.as_slice()[place];
    prices.set(place, moved_price(price, uses, taken, step));
}

/// The price of a request after a round.
fn moved_price(price: i64, uses: u32, taken: bool, step: i64) -> i64
    requires stay { IsPriceInRange (stepped_price step price uses taken) }
    ensures { result ≡ stepped_price step price uses taken }
{
    let taken = u32::from(taken);
    if taken < uses {
        price + step
    } else if uses < taken {
        price - step
    } else {
        price
    }
}

/// Moves each quota price, up where more seconds are demanded than the quota, down where fewer are.
pub(crate) fn move_quota_prices(
    quota_prices: &mut ListOf<u32>,
    demands: &[u64],
    quotas: &[u64],
    step: u64,
)
    requires step { step < 2 ^ 63 }
    requires quotas { length quotas.now ≡ length quota_prices.old }
    requires demands { length quota_prices.old ≤ length demands.now }
    ensures count { length quota_prices.new ≡ length quota_prices.old }
    ensures moved { (q : ℕ) → q < length quota_prices.old
        → slice_index_or quota_prices.new q 0
        ≡ moved_quota_price step (slice_index_or quota_prices.old q 0) (slice_index_or demands.now q 0) (slice_index_or quotas.now q 0) }
{
    for quota in 0..quota_prices.len() {
        let price = quota_prices.as_slice()[quota];
        quota_prices.set(
            quota,
            moved_quota_price(price, demands[quota], quotas[quota], step),
        );
    }
}

/// The price of a quota after a round: at most 200,000 where it rises, and at least 0.
fn moved_quota_price(price: u32, demand: u64, quota: u64, step: u64) -> u32
    ensures { result ≡ moved_quota_price step price demand quota }
{
    let step = quota_step(step);
    if demand > quota {
        (u64::from(price) + step).min(u64::from(MOST_QUOTA_PRICE)) as u32
    } else if demand < quota {
        u64::from(price).saturating_sub(step) as u32
    } else {
        price
    }
}
