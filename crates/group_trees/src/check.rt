// The verdict on a claim with a forest.

ghost use Rattle.std.specs.Prelude.{◌≡◌, ◌≤◌, ◌<◌, ℕ, pos, ◌+ℤ◌, ◌≤ℤ◌, List, length, All, IfOk};
ghost use Rattle.plan_base.specs.declared.claim.Placement.{Placement};
ghost use Rattle.plan_base.specs.Limits.{bound_limit};
ghost use Rattle.plan_base.specs.Requests.{listed};
ghost use Rattle.plan_base.specs.Starts.{value_of_plan};
ghost use Rattle.plan_base.specs.Verdict.{IsPriceInRange};
ghost use Rattle.bound_checker.specs.Summed.{IsSummed, IsPartSum};
ghost use Rattle.group_trees.specs.Plans.{IsForestFeasible};
ghost use Rattle.group_trees.specs.Rebates.{IsRebateAt, IsForestBound};
ghost use Rattle.group_trees.specs.Verdicts.{IsForestVerdict};
ghost use Rattle.group_trees.specs.Turned.{IsTurned, IsPricedFirst, IsBoundedBy};
ghost use Rattle.group_trees.specs.Built.{snapshot_of, trees_of};

use crate::forest::Forest;
use crate::laws::forest_duality;
use crate::rebate::tree_rebate;
use crate::standing::first_not_allowed;
use crate::turned::{Turned, turn};
use crate::verdict::{ForestReason, ForestVerdict};
use bound_checker::{check, rebate_sum};
use plan_base::{Claim, Prices, Snapshot, Sum, bound_limit};
use std::alloc::{AllocError, Global};

/// Whether a claim is certified for a forest: Yes with its value and bound, or No with the first reason against it, in the
/// order in which [`ForestReason`] lists them, each tested over the whole claim before the next. Where it is Yes, no plan
/// that is feasible for the forest is worth more than the bound. The forest was built for this snapshot. Fails only for want
/// of memory; a claim of 2^32 placements, which take 48 GiB, counts as that.
///
/// The claim is checked as one without trees first. What that says of the placements, the prices and the value holds here
/// too, and the bound that it finds is mended: the rebates of the trees take the place of those of the groups.
pub fn check_forest(
    alloc: Global,
    snapshot: &Snapshot,
    forest: &Forest<'_>,
    claim: &Claim,
) -> Result<ForestVerdict, AllocError>
    requires { snapshot_of forest.now ≡ snapshot.now }
    ensures verdict { IfOk result (λ verdict. IsForestVerdict snapshot.now (trees_of forest.now) claim.now verdict) }
    ensures bound { IfOk result (λ verdict. (value bound : ℕ) → verdict ≡ ForestVerdict.Yes value bound → (plan : List Placement)
        → IsForestFeasible snapshot.now (trees_of forest.now) plan → value_of_plan snapshot.now plan ≤ bound) }
{
    forest_duality(forest, &claim.prices);
    let turned = turned_of(alloc, snapshot, forest, claim)?;
    judge(alloc, forest, claim, turned)
}

/// What a check without trees tells of the claim.
fn turned_of(
    alloc: Global,
    snapshot: &Snapshot,
    forest: &Forest<'_>,
    claim: &Claim,
) -> Result<Turned, AllocError>
    requires { snapshot_of forest.now ≡ snapshot.now }
    ensures { IfOk result (IsTurned (snapshot_of forest.now) claim.now) }
{
    forest.recall_sound();
    Ok(turn(check(alloc, snapshot, claim)?))
}

/// The verdict, from what a check without trees tells.
fn judge(
    alloc: Global,
    forest: &Forest<'_>,
    claim: &Claim,
    turned: Turned,
) -> Result<ForestVerdict, AllocError>
    requires { IsTurned (snapshot_of forest.now) claim.now turned }
    ensures { IfOk result (λ verdict. IsForestVerdict (snapshot_of forest.now) (trees_of forest.now) claim.now verdict) }
{
    match turned {
        Turned::Placed(reason) => Ok(ForestVerdict::No(reason)),
        Turned::Priced(reason) => judge_priced(alloc, forest, claim, reason),
        Turned::Bounded(found) => judge_bound(alloc, forest, claim, found),
        Turned::Other => unreachable!(),
    }
}

/// The verdict where the prices or the value are wrong.
fn judge_priced(
    alloc: Global,
    forest: &Forest<'_>,
    claim: &Claim,
    reason: ForestReason,
) -> Result<ForestVerdict, AllocError>
    requires { IsPricedFirst (snapshot_of forest.now) claim.now reason }
    ensures { IfOk result (λ verdict. IsForestVerdict (snapshot_of forest.now) (trees_of forest.now) claim.now verdict) }
{
    match first_not_allowed(alloc, forest, claim.placements.as_slice())? {
        Some(tree) => Ok(ForestVerdict::No(ForestReason::NotAllowed { tree })),
        None => Ok(ForestVerdict::No(reason)),
    }
}

/// The verdict where all but the trees and the bound is right.
fn judge_bound(
    alloc: Global,
    forest: &Forest<'_>,
    claim: &Claim,
    found: u64,
) -> Result<ForestVerdict, AllocError>
    requires { IsBoundedBy (snapshot_of forest.now) claim.now found }
    ensures { IfOk result (λ verdict. IsForestVerdict (snapshot_of forest.now) (trees_of forest.now) claim.now verdict) }
{
    if let Some(tree) = first_not_allowed(alloc, forest, claim.placements.as_slice())? {
        return Ok(ForestVerdict::No(ForestReason::NotAllowed { tree }));
    }
    let claimed = claim.bound;
    let found = forest_bound(forest, claim, found);
    if claimed != found {
        return Ok(ForestVerdict::No(ForestReason::BoundDiffers { claimed, found }));
    }
    Ok(ForestVerdict::Yes {
        value: claim.value,
        bound: claimed,
    })
}

/// The bound with the rebates of the trees, from the one with those of the groups.
fn forest_bound(forest: &Forest<'_>, claim: &Claim, found: u64) -> u64
    requires { IsBoundedBy (snapshot_of forest.now) claim.now found }
    ensures { IsForestBound (snapshot_of forest.now) (trees_of forest.now) claim.now.prices.0 (pos result) }
{
    forest.recall_sound();
    let snapshot = forest.snapshot();
    bound_limit(snapshot, &claim.prices, &claim.quota_prices);
    let groups = rebate_sum(snapshot, &claim.prices, &claim.quota_prices);
    let trees = tree_rebates(forest, &claim.prices);
    replaced(found, groups, trees)
}

/// A bound with other rebates than it had.
fn replaced(bound: u64, old: i64, new: Sum) -> u64
    requires bound { bound < bound_limit }
    requires old { pos 0 ≤ℤ old }
    requires within { old ≤ℤ pos bound }
    requires new { IsPartSum new.value }
    ensures { pos result +ℤ old ≡ pos bound +ℤ new.value }
{
    (bound as i64 - old + new.value) as u64
}

/// The sum of the rebates of all trees.
fn tree_rebates(forest: &Forest<'_>, prices: &Prices) -> Sum
    requires count { length prices.now.0 ≡ length (listed (snapshot_of forest.now)) }
    requires range { All IsPriceInRange prices.now.0 }
    ensures sum { IsSummed (length (trees_of forest.now))
        (IsRebateAt (snapshot_of forest.now) prices.now.0 (trees_of forest.now)) 1024000000000000 result.value }
    ensures most { result.value ≤ℤ pos 1048576000000000000 }
{
    forest.recall_sound();
    forest.snapshot().recall_valid();
    let mut sum = Sum { value: 0 };
    for tree in 0..forest.trees().len() {
        sum.value += tree_rebate(forest, tree, prices);
    }
    sum
}
