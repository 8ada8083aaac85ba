// The verdict on a claim.

ghost use Rattle.std.specs.Prelude.{◌≡◌, ◌≤◌, ◌<◌, ◌^◌, ℕ, List, length, MatchOption, IfOk, IsTrue, ◌↔◌, ◌⊎◌};
ghost use Rattle.plan_base.specs.declared.claim.Placement.{Placement};
ghost use Rattle.plan_base.specs.Starts.{value_of_plan};
ghost use Rattle.plan_base.specs.Feasible.{IsFeasible};
ghost use Rattle.plan_base.specs.Verdict.{IsFirstReason, IsVerdict};
ghost use Rattle.bound_checker.specs.Reasons.{IsFoundFirst, ArePlaced, AreKindsKept, ArePricesFit, AreAllPricesFit};

use crate::bound::bound_of;
use crate::kinds::{count_placed, first_and_partial, first_oneof_twice};
use crate::known::{first_twice, first_unknown};
use crate::overlap::first_overlap;
use crate::possible::first_not_possible;
use crate::quotas::{first_quota_over, sum_seconds};
use crate::ranges::{first_price_out_of_range, first_quota_price_out_of_range};
use crate::value::value_of;
use plan_base::{Claim, Reason, Snapshot, Verdict, weak_duality};
use std::alloc::{AllocError, Global};

/// Whether a claim is certified for a snapshot: Yes with its value and bound, or No with the first reason against it,
/// in the order in which [`Reason`] lists them, each tested over the whole claim before the next. Where it is Yes, no
/// plan that is feasible for the snapshot is worth more than the bound. Fails only for want of memory; a claim of 2^32
/// placements, which take 48 GiB, counts as that.
pub fn check(alloc: Global, snapshot: &Snapshot, claim: &Claim) -> Result<Verdict, AllocError>
    ensures verdict { IfOk result (λ verdict. IsVerdict snapshot.now claim.now verdict) }
    ensures bound { IfOk result (λ verdict. (value bound : ℕ) → verdict ≡ Verdict.Yes value bound → (plan : List Placement)
        → IsFeasible snapshot.now plan → value_of_plan snapshot.now plan ≤ bound) }
{
    weak_duality(snapshot, &claim.prices, &claim.quota_prices);
    Ok(match first_reason(alloc, snapshot, claim)? {
        Some(reason) => Verdict::No(reason),
        None => Verdict::Yes {
            value: claim.value,
            bound: claim.bound,
        },
    })
}

/// The first reason why the claim isn't certified.
fn first_reason(
    alloc: Global,
    snapshot: &Snapshot,
    claim: &Claim,
) -> Result<Option<Reason>, AllocError>
    ensures { IfOk result (IsFirstReason snapshot.now claim.now) }
{
    if claim.placements.len() > u32::MAX as usize {
        return Err(AllocError);
    }
    if let Some(reason) = placement_reason(alloc, snapshot, claim)? {
        return Ok(Some(reason));
    }
    if let Some(reason) = group_reason(alloc, snapshot, claim)? {
        return Ok(Some(reason));
    }
    if let Some(reason) = quota_reason(alloc, snapshot, claim)? {
        return Ok(Some(reason));
    }
    if let Some(reason) = price_reason(snapshot, claim) {
        return Ok(Some(reason));
    }
    if let Some(reason) = quota_price_reason(snapshot, claim) {
        return Ok(Some(reason));
    }
    sum_reason(alloc, snapshot, claim)
}

/// The first reason in the placements one by one and two by two.
fn placement_reason(
    alloc: Global,
    snapshot: &Snapshot,
    claim: &Claim,
) -> Result<Option<Reason>, AllocError>
    requires { length claim.now.placements < 2 ^ 32 }
    ensures { IfOk result (λ first. MatchOption first (ArePlaced snapshot.now claim.now.placements) (IsFoundFirst snapshot.now claim.now)) }
{
    let plan = claim.placements.as_slice();
    if let Some(index) = first_unknown(snapshot, plan) {
        let index = index as u32;
        return Ok(Some(Reason::UnknownRequest { index }));
    }
    if let Some(index) = first_twice(alloc, snapshot, plan)? {
        let index = index as u32;
        return Ok(Some(Reason::PlacedTwice { index }));
    }
    if let Some(index) = first_not_possible(snapshot, plan) {
        let index = index as u32;
        return Ok(Some(Reason::NotPossible { index }));
    }
    if let Some(index) = first_overlap(alloc, snapshot, plan)? {
        let index = index as u32;
        return Ok(Some(Reason::Overlap { index }));
    }
    Ok(None)
}

/// The first reason in the kinds of the groups.
fn group_reason(
    alloc: Global,
    snapshot: &Snapshot,
    claim: &Claim,
) -> Result<Option<Reason>, AllocError>
    requires { ArePlaced snapshot.now claim.now.placements }
    ensures { IfOk result (λ first. MatchOption first (AreKindsKept snapshot.now claim.now.placements) (IsFoundFirst snapshot.now claim.now)) }
{
    let groups = snapshot.parts().groups.as_slice();
    let counts = count_placed(alloc, snapshot, claim.placements.as_slice())?;
    if let Some(place) = first_oneof_twice(groups, counts.as_slice()) {
        let group = groups[place].group;
        return Ok(Some(Reason::OneofTwice { group }));
    }
    if let Some(place) = first_and_partial(groups, counts.as_slice()) {
        let group = groups[place].group;
        return Ok(Some(Reason::AndPartial { group }));
    }
    Ok(None)
}

/// The first reason in the quotas.
fn quota_reason(
    alloc: Global,
    snapshot: &Snapshot,
    claim: &Claim,
) -> Result<Option<Reason>, AllocError>
    requires { AreKindsKept snapshot.now claim.now.placements }
    ensures { IfOk result (λ first. MatchOption first (IsFeasible snapshot.now claim.now.placements) (IsFoundFirst snapshot.now claim.now)) }
{
    let quotas = snapshot.parts().quotas.as_slice();
    let sums = sum_seconds(alloc, snapshot, claim.placements.as_slice())?;
    let Some(place) = first_quota_over(sums.as_slice(), quotas) else {
        return Ok(None);
    };
    Ok(Some(Reason::QuotaOver {
        quota: place as u32,
        seconds: sums[place],
        most: quotas[place],
    }))
}

/// The first reason in the prices of the requests.
fn price_reason(snapshot: &Snapshot, claim: &Claim) -> Option<Reason>
    requires { IsFeasible snapshot.now claim.now.placements }
    ensures { MatchOption result (ArePricesFit snapshot.now claim.now) (IsFoundFirst snapshot.now claim.now) }
{
    let prices = claim.prices.0.as_slice();
    let given = prices.len() as u64;
    let wanted = snapshot.request_count() as u64;
    if given != wanted {
        return Some(Reason::PriceCount { given, wanted });
    }
    let index = first_price_out_of_range(prices)? as u32;
    Some(Reason::PriceRange { index })
}

/// The first reason in the prices of the quotas.
fn quota_price_reason(snapshot: &Snapshot, claim: &Claim) -> Option<Reason>
    requires feasible { IsFeasible snapshot.now claim.now.placements }
    requires prices { ArePricesFit snapshot.now claim.now }
    ensures { MatchOption result (AreAllPricesFit snapshot.now claim.now) (IsFoundFirst snapshot.now claim.now) }
{
    let prices = claim.quota_prices.0.as_slice();
    let given = prices.len() as u64;
    let wanted = snapshot.parts().quotas.len() as u64;
    if !is_quota_price_count(given, wanted) {
        return Some(Reason::QuotaPriceCount { given, wanted });
    }
    let index = first_quota_price_out_of_range(prices)? as u32;
    Some(Reason::QuotaPriceRange { index })
}

/// Whether there are no quota prices, or one for each quota.
fn is_quota_price_count(given: u64, wanted: u64) -> bool
    ensures { IsTrue result ↔ ((given ≡ 0) ⊎ (given ≡ wanted)) }
{
    given == 0 || given == wanted
}

/// The first reason in the value and the bound.
fn sum_reason(
    alloc: Global,
    snapshot: &Snapshot,
    claim: &Claim,
) -> Result<Option<Reason>, AllocError>
    requires feasible { IsFeasible snapshot.now claim.now.placements }
    requires prices { AreAllPricesFit snapshot.now claim.now }
    ensures { IfOk result (IsFirstReason snapshot.now claim.now) }
{
    snapshot.recall_valid();
    let claimed = claim.value;
    let found = value_of(snapshot, claim.placements.as_slice());
    if claimed != found {
        return Ok(Some(Reason::ValueDiffers { claimed, found }));
    }
    let claimed = claim.bound;
    let found = bound_of(alloc, snapshot, &claim.prices, &claim.quota_prices)?;
    if claimed != found {
        return Ok(Some(Reason::BoundDiffers { claimed, found }));
    }
    Ok(None)
}
