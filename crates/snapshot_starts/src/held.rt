// A snapshot with its possible starts, kept for the snapshots after it.

ghost use Rattle.std.specs.Prelude.{◌≡◌, ◌+◌, ◌≤◌, ◌==◌, length, filter, IsTrue, IfOk, IfErr};
ghost use Rattle.std.specs.List.Sorted.{IsNonDecreasingBy};
ghost use Rattle.interval_set.specs.Spans.{span_has};
ghost use Rattle.plan_base.specs.Limits.{most_starts};
ghost use Rattle.plan_base.specs.Starts.{IsPossibleStart};
ghost use Rattle.snapshot_starts.specs.Slices.{AreSlices};
ghost use Rattle.snapshot_starts.specs.Pairs.{pair_start};
ghost use Rattle.snapshot_starts.specs.Runs.{AreAllStarts, IsCauseOf};

use crate::fault::StartFault;
use crate::find::{find_all, list_starts};
use crate::list::{Starts, part_of};
use crate::pair::Pair;
use crate::run::Run;
use crate::search::Search;
use interval_set::{Spans, common};
use plan_base::{Sec, Snapshot, Span, TelescopeNo};
use std::alloc::{AllocError, Global};
use std::marker::Model;
use std::thread::Threads;

/// A snapshot with its possible starts. Contracts see the snapshot's parts.
pub(crate) struct Held {
    snapshot: Snapshot,
    starts: Starts,
}

impl Drop for Held {
    fn drop(self) {
        let Self {
            snapshot: _,
            starts: _,
        } = self;
    }
}

impl Model for Held {
    ghost use Rattle.plan_base.specs.declared.parts.Parts.{Parts};
    ghost use Rattle.snapshot_starts.specs.Mending.{IsHeld};

    ghost Value = { Parts };

    ghost view = { λ a. a.snapshot };

    ghost invariant = { λ a. IsHeld a.snapshot a.starts };
}

impl Held {
    /// What a search finds.
    pub(crate) fn find<R: Threads + Sync>(
        rt: &R,
        alloc: Global,
        search: &Search<'_>,
    ) -> Result<Held, StartFault>
        ensures ok { IfOk result (λ held. held ≡ search.now) }
        ensures err { IfErr result (IsCauseOf search.now) }
    {
        let found = find_all(rt, alloc, search)?;
        let starts = list_starts(alloc, search.snapshot(), found.as_slice())?;
        let snapshot = search.snapshot().clone()?;
        Ok(Held { snapshot, starts })
    }

    /// The snapshot.
    pub(crate) fn snapshot(&self) -> &Snapshot
        ensures { result.now ≡ self.now }
    {
        &self.snapshot
    }

    /// All its possible starts.
    pub(crate) fn starts(&self) -> &Starts
        ensures all { AreAllStarts self.now result.now }
        ensures few { length result.now ≤ most_starts }
    {
        &self.starts
    }

    /// Those of the slices at which the pair has a possible start. Fails only for want of memory.
    pub(crate) fn slices_within(
        &self,
        alloc: Global,
        pair: Pair,
        slices: Span,
    ) -> Result<Spans, AllocError>
        ensures { IfOk result (AreSlices (λ k. IsPossibleStart self.now (pair_start pair k) × IsTrue (span_has slices k))) }
    {
        let runs = runs_on(self.starts.runs_of(pair.request), pair.telescope);
        let mut within = Vec::with_capacity(alloc, runs.len())?;
        for run in runs {
            within.push(common(slices_of_run(run), slices))?;
        }
        Spans::from_list(alloc, within.as_slice())
    }
}

/// The runs on one telescope, of runs in the order of telescopes. It looks by halves for the first and the last.
fn runs_on(runs: &[Run], telescope: TelescopeNo) -> &[Run]
    requires { IsNonDecreasingBy (λ run. run.telescope.0) runs.now }
    ensures { result.now ≡ filter (λ run. run.telescope.0 == telescope.0) runs.now }
{
    let from = runs.partition_point(|run| run.telescope.0 < telescope.0);
    let to = runs.partition_point(|run| run.telescope.0 <= telescope.0);
    part_of(runs, from, to)
}

/// The slices of a run.
fn slices_of_run(run: &Run) -> Span
    ensures from { result.from.0 ≡ run.now.first.0 }
    ensures to { result.to.0 ≡ run.now.first.0 + run.now.count }
{
    let first = u64::from(run.first.0);
    Span {
        from: Sec(first),
        to: Sec(first + u64::from(run.count)),
    }
}
