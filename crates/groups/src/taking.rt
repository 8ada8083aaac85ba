// What a group takes of its requests at prices.

ghost use Rattle.std.specs.Prelude.{◌≡◌, ◌≤◌, ◌<◌, ℕ, pos, int_lt, length, slice_index_or};
ghost use Rattle.std.specs.List.{IsFirstBest};
ghost use Rattle.plan_base.specs.Limits.{most_members};
ghost use Rattle.plan_base.specs.NetPrices.{price_sum};
ghost use Rattle.groups.specs.Takings.{takes_at, takes_by};

use plan_base::Op;

/// What a group takes of its requests at their net prices.
#[derive(Clone, Copy)]
pub enum Taking {
    /// Each whose price is above 0.
    Priced,
    /// The one at this place among its own, if its price is above 0.
    First(usize),
    /// All of them, or none.
    Whole(bool),
}

impl Taking {
    /// What a group of this kind takes at the net prices of its requests, 1 to 256 of them: a `SINGLE` or a `MANY`
    /// what has a price above 0, a `ONEOF` the first of its greatest price if that is above 0, and an `AND` all of its
    /// requests where the sum of their prices is above 0. It passes over the prices once.
    pub fn at(op: Op, prices: &[i64]) -> Taking
        requires some { 0 < length prices.now }
        requires few { length prices.now ≤ most_members }
        ensures { (i : ℕ) → i < length prices.now → takes_by result (slice_index_or prices.now i (pos 0)) i ≡ takes_at op prices.now i }
    {
        match op {
            Op::Single | Op::Many => Taking::Priced,
            Op::OneOf => Taking::First(first_greatest(prices)),
            Op::And => Taking::Whole(wide_sum(prices) > 0),
        }
    }

    /// Whether the request with this price at this place of the group is taken.
    pub fn takes(self, price: i64, place: usize) -> bool
        ensures { result ≡ takes_by self price place }
    {
        match self {
            Taking::Priced => price > 0,
            Taking::First(first) => price > 0 && place == first,
            Taking::Whole(taken) => taken,
        }
    }
}

/// The place of the first of the greatest prices, of which there is one at least.
fn first_greatest(prices: &[i64]) -> usize
    requires { 0 < length prices.now }
    ensures { IsFirstBest (λ a b. int_lt b a) prices.now (length prices.now) result }
{
    let mut first = 0;
    for place in 1..prices.len() {
        if prices[first] < prices[place] {
            first = place;
        }
    }
    first
}

/// A sum that grows. As a field a proof sees it as the number that it is, where it would see a variable of the loop as a word.
#[derive(Clone, Copy)]
struct Sum {
    value: i128,
}

/// The sum of at most 256 prices of any size.
fn wide_sum(prices: &[i64]) -> i128
    requires few { length prices.now ≤ most_members }
    ensures { result ≡ price_sum prices.now }
{
    let mut sum = Sum { value: 0 };
    for price in prices {
        sum.value += i128::from(*price);
    }
    sum.value
}
