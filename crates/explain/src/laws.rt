// What a bound on plans with a request is worth: a function with nothing to do, whose contract states the law.

ghost use Rattle.std.specs.Prelude.{ℕ, ℤ, pos, ◌≤ℤ◌, List};
ghost use Rattle.plan_base.specs.Starts.{value_of_plan};
ghost use Rattle.plan_base.specs.Bound.{IsBound};
ghost use Rattle.plan_base.specs.declared.claim.Placement.{Placement};
ghost use Rattle.explain.specs.declared.answer.Forced.{Forced as ForcedSeen};
ghost use Rattle.explain.specs.Forced.{IsForcedBound, ForcedValue, Excludes, IsPlanWith, IsInNoGoodPlan};

use plan_base::{Claim, Snapshot};

/// Where a claim's bound is that of its prices, no feasible plan that places a request is worth more than the request's
/// bound says. So a request that is excluded is in no feasible plan that is worth the claim's value.
pub fn forced_bounds_plans(snapshot: &Snapshot, claim: &Claim)
    requires bound { IsBound snapshot.now claim.now.prices.0 claim.now.quota_prices.0 (pos claim.now.bound) }
    ensures bound { (r : ℕ) (b : ℤ) (plan : List Placement) → IsForcedBound snapshot.now claim.now r b
        → IsPlanWith snapshot.now r plan → pos (value_of_plan snapshot.now plan) ≤ℤ b }
    ensures excluded { (r : ℕ) (forced : ForcedSeen) → ForcedValue snapshot.now claim.now r forced
        → Excludes claim.now forced → IsInNoGoodPlan snapshot.now claim.now r }
{
    snapshot.recall_valid();
}
