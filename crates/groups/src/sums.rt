// Sums of a group's prices, and their greatest.

ghost use Rattle.std.specs.Prelude.{◌≡◌, ◌≤◌, length, All};
ghost use Rattle.plan_base.specs.Limits.{most_members};
ghost use Rattle.plan_base.specs.NetPrices.{IsNetInRange, positive, positive_sum, price_sum, IsGreatestPrice};

use plan_base::{Sum, larger};

/// The sum of at most 256 prices.
pub(crate) fn price_sum(prices: &[i64]) -> i64
    requires few { length prices.now ≤ most_members }
    requires range { All IsNetInRange prices.now }
    ensures { result ≡ price_sum prices.now }
{
    let mut sum = Sum { value: 0 };
    for price in prices {
        sum.value += *price;
    }
    sum.value
}

/// The sum of those of at most 256 prices that are above 0.
pub(crate) fn positive_sum(prices: &[i64]) -> i64
    requires few { length prices.now ≤ most_members }
    requires range { All IsNetInRange prices.now }
    ensures { result ≡ positive_sum prices.now }
{
    let mut sum = Sum { value: 0 };
    for price in prices {
        sum.value += positive(*price);
    }
    sum.value
}

/// The price where it is above 0, else 0.
pub(crate) fn positive(price: i64) -> i64
    ensures { result ≡ positive price }
{
    if price > 0 { price } else { 0 }
}

/// The greatest price, or 0 where none is above 0.
pub(crate) fn greatest_price(prices: &[i64]) -> i64
    ensures { IsGreatestPrice prices.now result }
{
    let mut greatest = Sum { value: 0 };
    for price in prices {
        greatest.value = larger(greatest.value, *price);
    }
    greatest.value
}
