// Whether the prices of a claim are in their ranges.

ghost use Rattle.std.specs.Prelude.{◌<◌, ◌≤◌, MatchOption, All, length, slice_index_or, pos};
ghost use Rattle.plan_base.specs.Limits.{most_quota_price};
ghost use Rattle.plan_base.specs.Verdict.{IsFirst, IsPriceInRange};

use plan_base::{MOST_PRICE, MOST_QUOTA_PRICE};

/// The first price that is out of its range.
pub(crate) fn first_price_out_of_range(prices: &[i64]) -> Option<usize>
    ensures { MatchOption result (All IsPriceInRange prices.now)
        (IsFirst (λ i. (i < length prices.now) × ¬ (IsPriceInRange (slice_index_or prices.now i (pos 0))))) }
{
    for (index, price) in prices.iter().enumerate() {
        if *price < -MOST_PRICE || *price > MOST_PRICE {
            return Some(index);
        }
    }
    None
}

/// The first quota price that is out of its range.
pub(crate) fn first_quota_price_out_of_range(quota_prices: &[u32]) -> Option<usize>
    ensures { MatchOption result (All (λ u. u ≤ most_quota_price) quota_prices.now) (IsFirst (λ i. most_quota_price < slice_index_or quota_prices.now i 0)) }
{
    for (index, price) in quota_prices.iter().enumerate() {
        if *price > MOST_QUOTA_PRICE {
            return Some(index);
        }
    }
    None
}
