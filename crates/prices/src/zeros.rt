// The prices that a lane begins with.

ghost use Rattle.std.specs.Prelude.{◌≡◌, pos, replicate, IfOk};

use plan_base::{ListOf, Prices, QuotaPrices};
use std::alloc::{AllocError, Global};

/// So many prices of 0, those of a lane's first round. Fails only for want of memory.
pub fn zero_prices(alloc: Global, count: usize) -> Result<Prices, AllocError>
    ensures { IfOk result (λ prices. prices.0 ≡ replicate count (pos 0)) }
{
    let zeros = vec![in alloc; 0; count]?;
    Ok(Prices(ListOf::from_vec(zeros)))
}

/// So many quota prices of 0, those of a lane's first round. Fails only for want of memory.
pub fn zero_quota_prices(alloc: Global, count: usize) -> Result<QuotaPrices, AllocError>
    ensures { IfOk result (λ quota_prices. quota_prices.0 ≡ replicate count 0) }
{
    let zeros = vec![in alloc; 0; count]?;
    Ok(QuotaPrices(ListOf::from_vec(zeros)))
}
