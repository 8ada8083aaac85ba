// The bound that prices give.

ghost use Rattle.std.specs.Prelude.{◌≡◌, ℤ, pos, ◌+ℤ◌, ◌≤ℤ◌, All};
ghost use Rattle.plan_base.specs.Limits.{bound_limit};
ghost use Rattle.plan_base.specs.Sums.{total};

use plan_base::Sum;

/// The Lagrangian dual bound of prices: the sum of the bests of the telescopes, the rebates of the groups at net prices
/// and the quotas times their prices. None of these is negative, and the sum is at most 10^17.
pub fn lagrangian(bests: &[i64], rebates: &[i64], quotas: &[i64]) -> u64
    requires bests { All (λ c. pos 0 ≤ℤ c) bests.now }
    requires rebates { All (λ c. pos 0 ≤ℤ c) rebates.now }
    requires quotas { All (λ c. pos 0 ≤ℤ c) quotas.now }
    requires most { (total (λ c. c) bests.now +ℤ total (λ c. c) rebates.now +ℤ total (λ c. c) quotas.now) ≤ℤ pos bound_limit }
    ensures { pos result ≡ total (λ c. c) bests.now +ℤ total (λ c. c) rebates.now +ℤ total (λ c. c) quotas.now }
{
    sum_of(bests) + sum_of(rebates) + sum_of(quotas)
}

/// The sum of numbers that aren't negative.
fn sum_of(numbers: &[i64]) -> u64
    requires not_negative { All (λ c. pos 0 ≤ℤ c) numbers.now }
    requires most { total (λ c. c) numbers.now ≤ℤ pos bound_limit }
    ensures { pos result ≡ total (λ c. c) numbers.now }
{
    let mut sum = Sum { value: 0 };
    for number in numbers {
        sum.value += *number;
    }
    sum.value as u64
}
