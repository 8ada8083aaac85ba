// Why a claim leaves requests out.

ghost use Rattle.std.specs.Prelude.{◌+◌, ◌<◌, IfOk, OnOk, length};
ghost use Rattle.plan_base.specs.Requests.{listed};
ghost use Rattle.plan_base.specs.Verdict.{IsCertified};
ghost use Rattle.explain.specs.Left.{IsExplanation, IsExplainAnswer, AreExclusionsSound};
ghost use Rattle.explain.specs.Crossings.{AreCharts};
ghost use Rattle.explain.specs.Explained.{AreLeftTo};

use crate::answer::{ExplainAnswer, Explanation, Left};
use crate::chart::Chart;
use crate::left::{is_placed, left_of};
use crate::passage::charts_of;
use bound_checker::check;
use plan_base::{Claim, ListOf, Snapshot, Verdict};
use std::alloc::{AllocError, Global};

/// Why a claim leaves requests out: for each request that it doesn't place, how many possible starts it has, the
/// placements that share a slice with one of them, and the most that a feasible plan may be worth that places it. A
/// request whose bound is below the claim's value, or that has no start, is in no feasible plan worth as much as the
/// claim's. The converse isn't claimed. `No` comes exactly where [`check`] says No. Fails only for want of memory.
///
/// One table forward and one backward for each telescope serve all requests. Beside the claim's check it costs time for
/// the windows, the spans and the possible starts of each telescope, once, and for each request a walk over the claim's
/// placements, and, where it is left out, another one and a walk over the windows, the spans and the slices of its
/// telescopes; and memory for the possible starts of a telescope, two numbers for each telescope and slice, and a flag for
/// each slice of a request's telescopes.
///
/// [`check`]: bound_checker::check
pub fn explain(
    alloc: Global,
    snapshot: &Snapshot,
    claim: &Claim,
) -> Result<ExplainAnswer, AllocError>
    ensures answer { IfOk result (IsExplainAnswer snapshot.now claim.now) }
    ensures excluded { IfOk result (AreExclusionsSound snapshot.now claim.now) }
{
    snapshot.recall_valid();
    match check(alloc, snapshot, claim)? {
        Verdict::Yes { .. } => Ok(ExplainAnswer::Explained(explained(alloc, snapshot, claim)?)),
        Verdict::No(reason) => Ok(ExplainAnswer::No(reason)),
    }
}

/// What a certified claim leaves out.
fn explained(alloc: Global, snapshot: &Snapshot, claim: &Claim) -> Result<Explanation, AllocError>
    requires { IsCertified snapshot.now claim.now }
    ensures { IfOk result (IsExplanation snapshot.now claim.now) }
{
    let charts = charts_of(alloc, snapshot, &claim.prices)?;
    let mut lefts = Vec::new(alloc);
    for place in 0..snapshot.request_count() {
        add_left(alloc, snapshot, claim, charts.as_slice(), place, &mut lefts)?;
    }
    Ok(Explanation {
        lefts: ListOf::from_vec(lefts),
    })
}

/// Adds the request at a place, where the claim leaves it out.
fn add_left(
    alloc: Global,
    snapshot: &Snapshot,
    claim: &Claim,
    charts: &[Chart],
    place: usize,
    lefts: &mut Vec<Left>,
) -> Result<(), AllocError>
    requires certified { IsCertified snapshot.now claim.now }
    requires charts { AreCharts snapshot.now claim.now.prices.0 charts.now }
    requires place { place < length (listed snapshot.now) }
    requires lefts { AreLeftTo snapshot.now claim.now place lefts.old.items }
    ensures { OnOk result (AreLeftTo snapshot.now claim.now (place + 1) lefts.new.items) }
{
    snapshot.recall_valid();
    let request = snapshot.request_at(place).request;
    if is_placed(claim.placements.as_slice(), request) {
        return Ok(());
    }
    let left = left_of(alloc, snapshot, claim, charts, request)?;
    lefts.push(left)?;
    Ok(())
}
