// Whether prices are such as a claim may have.

ghost use Rattle.std.specs.Prelude.{◌↔◌, IsTrue, All};
ghost use Rattle.plan_base.specs.Verdict.{IsPriceInRange};

use plan_base::MOST_PRICE;

/// Whether each price of a request, in the units of its value, is one that a claim may have: from -[`MOST_PRICE`] to [`MOST_PRICE`].
pub fn are_in_range(prices: &[i64]) -> bool
    ensures { IsTrue result ↔ All IsPriceInRange prices.now }
{
    prices
        .iter()
        .all(|price| -MOST_PRICE <= *price && *price <= MOST_PRICE)
}
