// Laws of plans, values and bounds. Each is a function with nothing to do, whose contract states the law of its arguments.

ghost use Rattle.std.specs.Prelude.{◌≤◌, ◌<◌, ◌*◌, ℕ, ℤ, pos, neg_ℤ, ◌+ℤ◌, ◌≤ℤ◌, ◌<ℤ◌, List, [], length, All};
ghost use Rattle.plan_base.specs.Starts.{IsPossibleStart, worth_at, value_of_plan};
ghost use Rattle.plan_base.specs.Requests.{request_value};
ghost use Rattle.plan_base.specs.Feasible.{IsFeasible};
ghost use Rattle.plan_base.specs.Saturated.{IsSaturated};
ghost use Rattle.plan_base.specs.Fill.{IsFilled, IsGreedy};
ghost use Rattle.plan_base.specs.Planned.{IsPlanned};
ghost use Rattle.plan_base.specs.Sums.{AreParts, sum_of};
ghost use Rattle.plan_base.specs.Limits.{most_value, most_price, most_quota_price, bound_limit};
ghost use Rattle.plan_base.specs.Bound.{IsBest, net_price, IsRebate, IsQuotaPart, IsBound};
ghost use Rattle.plan_base.specs.Tables.{horizon_end, IsTable};
ghost use Rattle.plan_base.specs.Round.{IsRoundPrices};
ghost use Rattle.plan_base.specs.Verdict.{IsPriceInRange};
ghost use Rattle.plan_base.specs.declared.claim.Claim.{Claim};
ghost use Rattle.plan_base.specs.declared.claim.Placement.{Placement};
ghost use Rattle.plan_base.specs.declared.claim.Settings.{Settings};

use crate::claim::{Placement, Prices, QuotaPrices};
use crate::snapshot::Snapshot;

/// Weak duality: whatever the prices, no feasible plan is worth more than the bound that they give. The bound is that of
/// a Lagrangian relaxation (Geoffrion 1974), with a multiplier for each request and for each quota.
pub fn weak_duality(snapshot: &Snapshot, prices: &Prices, quota_prices: &QuotaPrices)
    ensures { (plan : List Placement) (bound : ℤ) → IsFeasible snapshot.now plan
        → IsBound snapshot.now prices.now.0 quota_prices.now.0 bound → pos (value_of_plan snapshot.now plan) ≤ℤ bound }
{
    snapshot.recall_valid();
}

/// A possible start is worth 1 at least, and its request's value at most, in the units of that value.
#[tactic(auto, using(crate::proofs::Known::worth_between))]
pub fn worth_between(snapshot: &Snapshot, start: &Placement)
    requires { IsPossibleStart snapshot.now start.now }
    ensures least { 1 ≤ worth_at snapshot.now start.now }
    ensures most { worth_at snapshot.now start.now ≤ request_value snapshot.now start.now.request.0 }
{
    snapshot.recall_valid();
}

/// A feasible plan is worth less than 10^12.
#[tactic(auto, using(crate::proofs::Limits::value_limit))]
pub fn value_limit(snapshot: &Snapshot)
    ensures { (plan : List Placement) → IsFeasible snapshot.now plan → value_of_plan snapshot.now plan < most_price }
{
    snapshot.recall_valid();
}

/// The bound of prices from -10^12 to 10^12 and quota prices of 200,000 at most lies from 0 to below 10^17, so it fits
/// 64 bits.
pub fn bound_limit(snapshot: &Snapshot, prices: &Prices, quota_prices: &QuotaPrices)
    requires prices { All IsPriceInRange prices.now.0 }
    requires quota_prices { All (λ u. u ≤ most_quota_price) quota_prices.now.0 }
    ensures least { (bound : ℤ) → IsBound snapshot.now prices.now.0 quota_prices.now.0 bound → pos 0 ≤ℤ bound }
    ensures most { (bound : ℤ) → IsBound snapshot.now prices.now.0 quota_prices.now.0 bound → bound <ℤ pos bound_limit }
{
    snapshot.recall_valid();
}

/// How far the prices of a lane's rounds are from 0: in each round a price moves by no more than the greatest value that a request
/// may have, so that after 256 rounds it is within 10^12. Those of quotas are 200,000 at most.
pub fn round_limit(snapshot: &Snapshot)
    ensures prices { (lane round : ℕ) (prices : List ℤ) (quota_prices : List ℕ) → IsRoundPrices snapshot.now lane round prices quota_prices
        → All (λ p. (neg_ℤ (pos (round * most_value)) ≤ℤ p) × (p ≤ℤ pos (round * most_value))) prices }
    ensures quota_prices { (lane round : ℕ) (prices : List ℤ) (quota_prices : List ℕ) → IsRoundPrices snapshot.now lane round prices quota_prices
        → All (λ u. u ≤ most_quota_price) quota_prices }
{
    snapshot.recall_valid();
}

/// The bests of all telescopes from the first slice on, the rebates of all groups over net prices, and the quotas at
/// their prices add up to the bound.
pub fn bound_of_parts(snapshot: &Snapshot, prices: &Prices, quota_prices: &QuotaPrices)
    ensures { (bests rebates quotas : List ℤ)
        → AreParts (length snapshot.now.telescopes) (λ t. IsBest snapshot.now prices.now.0 t snapshot.now.first.0) bests
        → AreParts (length snapshot.now.groups) (IsRebate snapshot.now (net_price snapshot.now prices.now.0 quota_prices.now.0)) rebates
        → AreParts (length snapshot.now.quotas) (IsQuotaPart snapshot.now quota_prices.now.0) quotas
        → IsBound snapshot.now prices.now.0 quota_prices.now.0 (sum_of bests +ℤ sum_of rebates +ℤ sum_of quotas) }
{}

/// Numbers by slice that are 0 after the horizon, and before it the greatest of the next one and of what each start of a
/// telescope gives, are its bests.
pub fn table_has_bests(snapshot: &Snapshot, prices: &Prices)
    ensures { (t : ℕ) (table : ℕ → ℤ) → IsTable snapshot.now prices.now.0 t table
        → (k : ℕ) → snapshot.now.first.0 ≤ k → k ≤ horizon_end snapshot.now → IsBest snapshot.now prices.now.0 t k (table k) }
{
    snapshot.recall_valid();
}

/// A plan that is filled is feasible, where it began so, and saturated.
pub fn filled_is_saturated(snapshot: &Snapshot)
    ensures feasible { (plan after : List Placement) → IsFeasible snapshot.now plan → IsFilled snapshot.now plan after → IsFeasible snapshot.now after }
    ensures saturated { (plan after : List Placement) → IsFilled snapshot.now plan after → IsSaturated snapshot.now after }
{
    snapshot.recall_valid();
}

/// The placements of a planned claim are feasible and saturated, and worth at least the greedy plan.
pub fn planned_is_saturated(snapshot: &Snapshot)
    ensures feasible { (settings : Settings) (claim : Claim) → IsPlanned snapshot.now settings claim → IsFeasible snapshot.now claim.placements }
    ensures saturated { (settings : Settings) (claim : Claim) → IsPlanned snapshot.now settings claim → IsSaturated snapshot.now claim.placements }
    ensures greedy { (settings : Settings) (claim : Claim) (plan : List Placement) → IsPlanned snapshot.now settings claim → IsGreedy snapshot.now plan
        → value_of_plan snapshot.now plan ≤ value_of_plan snapshot.now claim.placements }
{
    snapshot.recall_valid();
}

/// The plan that places nothing is feasible, whatever the snapshot.
pub fn empty_is_feasible(snapshot: &Snapshot)
    ensures { IsFeasible snapshot.now [] }
{}
