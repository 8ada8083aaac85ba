// Laws: for the same arguments there is one best, one rebate, one bound, one verdict, one canonical use, one number
// of possible starts, one filled plan, one list of a round's prices and one repaired plan.

ghost use Rattle.std.specs.Prelude.{◌≡◌, ℕ, ℤ, List};
ghost use Rattle.plan_base.specs.declared.claim.Placement.{Placement};
ghost use Rattle.plan_base.specs.declared.verdict.Verdict.{Verdict};
ghost use Rattle.plan_base.specs.Starts.{IsStartCount};
ghost use Rattle.plan_base.specs.Bound.{IsBest, IsRebate, IsBound};
ghost use Rattle.plan_base.specs.Canonical.{IsCanonicalUse};
ghost use Rattle.plan_base.specs.Fill.{IsFilled};
ghost use Rattle.plan_base.specs.Round.{IsRoundPrices};
ghost use Rattle.plan_base.specs.Repaired.{IsRepaired};
ghost use Rattle.plan_base.specs.Verdict.{IsVerdict};

use crate::claim::{Claim, Prices, QuotaPrices};
use crate::snapshot::Snapshot;

/// A telescope has one best from a slice on.
pub fn one_best(snapshot: &Snapshot, prices: &Prices)
    ensures { (t k : ℕ) (a b : ℤ) → IsBest snapshot.now prices.now.0 t k a → IsBest snapshot.now prices.now.0 t k b → a ≡ b }
{}

/// A group has one rebate over the same prices.
pub fn one_rebate(snapshot: &Snapshot)
    ensures { (c : ℕ → ℤ) (g : ℕ) (a b : ℤ) → IsRebate snapshot.now c g a → IsRebate snapshot.now c g b → a ≡ b }
{}

/// Two lists of prices give one bound.
pub fn one_bound(snapshot: &Snapshot, prices: &Prices, quota_prices: &QuotaPrices)
    ensures { (a b : ℤ) → IsBound snapshot.now prices.now.0 quota_prices.now.0 a → IsBound snapshot.now prices.now.0 quota_prices.now.0 b → a ≡ b }
{}

/// A claim has one verdict.
pub fn one_verdict(snapshot: &Snapshot, claim: &Claim)
    ensures { (v w : Verdict) → IsVerdict snapshot.now claim.now v → IsVerdict snapshot.now claim.now w → v ≡ w }
{}

/// A telescope has one canonical use at the same prices.
pub fn one_canonical_use(snapshot: &Snapshot, prices: &Prices)
    ensures { (t : ℕ) (xs ys : List Placement) → IsCanonicalUse snapshot.now prices.now.0 t xs → IsCanonicalUse snapshot.now prices.now.0 t ys → xs ≡ ys }
{
    snapshot.recall_valid();
}

/// A snapshot has one number of possible starts.
pub fn one_start_count(snapshot: &Snapshot)
    ensures { (m n : ℕ) → IsStartCount snapshot.now m → IsStartCount snapshot.now n → m ≡ n }
{}

/// A plan is filled in one way.
pub fn one_filled_plan(snapshot: &Snapshot)
    ensures { (plan xs ys : List Placement) → IsFilled snapshot.now plan xs → IsFilled snapshot.now plan ys → xs ≡ ys }
{}

/// A lane's round has one list of prices, and one of quota prices.
pub fn one_round(snapshot: &Snapshot)
    ensures { (lane round : ℕ) (a : List ℤ) (u : List ℕ) (b : List ℤ) (v : List ℕ) → IsRoundPrices snapshot.now lane round a u
        → IsRoundPrices snapshot.now lane round b v → (a ≡ b) × (u ≡ v) }
{
    snapshot.recall_valid();
}

/// The same prices give one repaired plan.
pub fn one_repaired_plan(snapshot: &Snapshot, prices: &Prices)
    ensures { (xs ys : List Placement) → IsRepaired snapshot.now prices.now.0 xs → IsRepaired snapshot.now prices.now.0 ys → xs ≡ ys }
{
    snapshot.recall_valid();
}
