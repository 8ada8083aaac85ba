// What the slices that were found give: their count, and their runs.

ghost use Rattle.std.specs.Prelude.{◌≡◌, ◌++◌, ◌≤◌, map, sum_by, All, IfOk, OnOk};
ghost use Rattle.plan_base.specs.Limits.{most_slices};
ghost use Rattle.snapshot_starts.specs.Found.{AreFew, AreRunSpans, IsRunSpan, slice_count, run_of, runs_of};

use crate::pair::{Pair, PairSlices};
use crate::run::Run;
use plan_base::{SliceNo, Span};
use std::alloc::{AllocError, Global};

/// How many starts there are.
pub(crate) fn count_starts(found: &[PairSlices]) -> u64
    requires { AreFew found.now }
    ensures { result ≡ sum_by (λ x. slice_count x.slices) found.now }
{
    let mut count = 0;
    for pair_slices in found {
        count += count_slices(pair_slices.slices.list());
    }
    count
}

fn count_slices(slices: &[Span]) -> u64
    requires few { slice_count slices.now ≤ most_slices }
    requires spans { All IsRunSpan slices.now }
    ensures { result ≡ slice_count slices.now }
{
    let mut count = 0;
    for span in slices {
        count += span.to.0 - span.from.0;
    }
    count
}

/// The runs of all pairs, in order.
pub(crate) fn runs_of(alloc: Global, found: &[PairSlices]) -> Result<Vec<Run>, AllocError>
    requires { AreRunSpans found.now }
    ensures { IfOk result (λ runs. runs.items ≡ runs_of found.now) }
{
    let mut runs = Vec::new(alloc);
    for pair_slices in found {
        push_runs(&mut runs, pair_slices.pair, pair_slices.slices.list())?;
    }
    Ok(runs)
}

fn push_runs(runs: &mut Vec<Run>, pair: Pair, slices: &[Span]) -> Result<(), AllocError>
    requires { All IsRunSpan slices.now }
    ensures { OnOk result (runs.new.items ≡ runs.old.items ++ map (run_of pair) slices.now) }
{
    for span in slices {
        runs.push(Run {
            request: pair.request,
            telescope: pair.telescope,
            first: SliceNo(span.from.0 as u32),
            count: (span.to.0 - span.from.0) as u32,
        })?;
    }
    Ok(())
}
