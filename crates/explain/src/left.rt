// What is said of one request that a claim leaves out.

ghost use Rattle.std.specs.Prelude.{◌≡◌, ◌↔◌, ◌<◌, pos, ◌+ℤ◌, ◌-ℤ◌, Any, IfOk, IsTrue, MatchOption};
ghost use Rattle.plan_base.specs.Limits.{bound_limit};
ghost use Rattle.plan_base.specs.declared.claim.Placement.{Placement as PlacementSeen};
ghost use Rattle.plan_base.specs.Requests.{IsKnown};
ghost use Rattle.plan_base.specs.Verdict.{IsCertified};
ghost use Rattle.openings.specs.Openings.{IsStartFor};
ghost use Rattle.explain.specs.Forced.{IsGreatestDetour, IsForcedBound, ForcedValue};
ghost use Rattle.explain.specs.Left.{IsLeft};
ghost use Rattle.explain.specs.Choice.{IsRebateSize};
ghost use Rattle.explain.specs.Crossings.{AreCharts, IsDetourInRange};

use crate::answer::{Forced, Left};
use crate::blocking::blocking_of;
use crate::chart::Chart;
use crate::choice::rebate_with;
use crate::passage::pass;
use bound_checker::{known_group, rebate_of};
use openings::openings_of;
use plan_base::{Claim, Placement, RequestNo, Snapshot, bound_limit};
use std::alloc::{AllocError, Global};

/// What is said of a request that the claim leaves out. Fails only for want of memory.
pub(crate) fn left_of(
    alloc: Global,
    snapshot: &Snapshot,
    claim: &Claim,
    charts: &[Chart],
    request: RequestNo,
) -> Result<Left, AllocError>
    requires certified { IsCertified snapshot.now claim.now }
    requires charts { AreCharts snapshot.now claim.now.prices.0 charts.now }
    requires request { IsKnown snapshot.now request.0 }
    ensures { IfOk result (IsLeft snapshot.now claim.now request.0) }
{
    snapshot.recall_valid();
    let openings = openings_of(alloc, snapshot, &claim.prices, request)?;
    let passage = pass(snapshot, &claim.prices, charts, &openings);
    let plan = claim.placements.as_slice();
    Ok(Left {
        request,
        starts: passage.starts,
        blocking: blocking_of(alloc, snapshot, plan, &openings)?,
        forced: forced_of(snapshot, claim, request, passage.detour),
    })
}

/// The bound on plans with a request, by its greatest detour.
fn forced_of(snapshot: &Snapshot, claim: &Claim, request: RequestNo, detour: Option<i64>) -> Forced
    requires certified { IsCertified snapshot.now claim.now }
    requires request { IsKnown snapshot.now request.0 }
    requires detour { MatchOption detour
        ((p : PlacementSeen) → ¬ (IsStartFor snapshot.now request.0 p))
        (λ d. IsGreatestDetour snapshot.now claim.now.prices.0 request.0 d × IsDetourInRange d) }
    ensures { ForcedValue snapshot.now claim.now request.0 result }
{
    match detour {
        Some(detour) => Forced::Bound(bound_with(snapshot, claim, request, detour)),
        None => Forced::NoStart,
    }
}

/// The claim's bound, with the rebate of the request's group where the request is taken for its rebate, and a detour.
fn bound_with(snapshot: &Snapshot, claim: &Claim, request: RequestNo, detour: i64) -> i64
    requires certified { IsCertified snapshot.now claim.now }
    requires request { IsKnown snapshot.now request.0 }
    requires detour { IsGreatestDetour snapshot.now claim.now.prices.0 request.0 detour }
    requires range { IsDetourInRange detour }
    ensures { IsForcedBound snapshot.now claim.now request.0 result }
{
    snapshot.recall_valid();
    bound_limit(snapshot, &claim.prices, &claim.quota_prices);
    let group = known_group(snapshot, request);
    let rebate = rebate_of(snapshot, group, &claim.prices, &claim.quota_prices);
    let with = rebate_with(snapshot, request, &claim.prices, &claim.quota_prices);
    forced_sum(claim.bound, rebate, with, detour)
}

/// A bound less a rebate, with another and a detour.
fn forced_sum(bound: u64, rebate: i64, with: i64, detour: i64) -> i64
    requires bound { bound < bound_limit }
    requires rebate { IsRebateSize rebate }
    requires with { IsRebateSize with }
    requires detour { IsDetourInRange detour }
    ensures { result ≡ pos bound -ℤ rebate +ℤ with +ℤ detour }
{
    bound as i64 - rebate + with + detour
}

/// Whether a plan places a request.
pub(crate) fn is_placed(plan: &[Placement], request: RequestNo) -> bool
    ensures { IsTrue result ↔ Any (λ p. p.request.0 ≡ request.0) plan.now }
{
    plan.iter()
        .any(|placement| placement.request.0 == request.0)
}
