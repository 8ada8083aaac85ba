// Possible starts as a list that is kept as runs.

ghost use Rattle.std.specs.Prelude.{◌≡◌, ◌≤◌, ◌<◌, ◌∷◌, nat_lt, nat_le, length, slice_index_or, slice_range, HoldsAt, IfOk};
ghost use Rattle.std.specs.List.Sorted.{IsNonDecreasingBy};
ghost use Rattle.plan_base.specs.Limits.{most_starts};
ghost use Rattle.snapshot_starts.specs.Runs.{AreRuns, starts_of, starts_with};
ghost use Rattle.snapshot_starts.specs.Kept.{CanKeep, AreSums, IsCountUpTo, HoldsBelow, count_of};

use crate::run::Run;
use plan_base::{Placement, RequestNo, SliceNo};
use std::alloc::{AllocError, Global};
use std::marker::Model;

/// Possible starts in the order of request, telescope and slice. Contracts see the list of them; kept are their runs.
pub struct Starts {
    runs: Vec<Run>,
    /// How many starts each run has together with those before it.
    sums: Vec<u32>,
}

impl Drop for Starts {
    fn drop(self) {
        let Self { runs: _, sums: _ } = self;
    }
}

impl Model for Starts {
    ghost use Rattle.std.specs.Prelude.{List};
    ghost use Rattle.plan_base.specs.declared.claim.Placement.{Placement};
    ghost use Rattle.snapshot_starts.specs.Runs.{starts_of};
    ghost use Rattle.snapshot_starts.specs.Kept.{IsKept};

    ghost Value = { List Placement };

    ghost view = { λ a. starts_of a.runs.items };

    ghost invariant = { λ a. IsKept a.runs.items a.sums.items };
}

impl Starts {
    /// The starts of runs that are in order.
    pub(crate) fn from_runs(alloc: Global, runs: Vec<Run>) -> Result<Starts, AllocError>
        requires { CanKeep runs.items }
        ensures { IfOk result (λ starts. starts ≡ starts_of runs.items) }
    {
        let sums = sums_of(alloc, runs.as_slice())?;
        Ok(Starts { runs, sums })
    }

    /// How many starts there are.
    pub fn count(&self) -> usize
        ensures count { result ≡ length self.now }
        ensures most { result ≤ most_starts }
    {
        let sums = self.sums.as_slice();
        sum_before(sums, sums.len())
    }

    /// The start at a place of the list. It looks by halves for the run that has it.
    pub fn at(&self, index: usize) -> Placement
        requires { index < length self.now }
        ensures { HoldsAt (λ start. start ≡ result) self.now index }
    {
        let sums = self.sums.as_slice();
        let place = count_up_to(sums, index);
        let run = self.runs[place];
        let offset = index - sum_before(sums, place);
        Placement {
            request: run.request,
            telescope: run.telescope,
            slice: SliceNo(run.first.0 + offset as u32),
        }
    }

    /// The runs of the starts, in the order of request, telescope and slice.
    pub fn runs(&self) -> &[Run]
        ensures { AreRuns self.now result.now }
    {
        self.runs.as_slice()
    }

    /// The runs of one request, by telescope and slice. It looks by halves for the first and the last.
    pub fn runs_of(&self, request: RequestNo) -> &[Run]
        ensures { AreRuns (starts_with self.now request.0) result.now }
    {
        let runs = self.runs.as_slice();
        let from = count_before(runs, request);
        let to = count_through(runs, request);
        part_of(runs, from, to)
    }
}

/// The runs from one place up to the one before another.
pub(crate) fn part_of(runs: &[Run], from: usize, to: usize) -> &[Run]
    requires order { from ≤ to }
    requires within { to ≤ length runs.now }
    ensures { result.now ≡ slice_range runs.now from to }
{
    &runs[from..to]
}

/// How many runs are of requests below one.
fn count_before(runs: &[Run], request: RequestNo) -> usize
    requires { IsNonDecreasingBy (λ run. run.request.0) runs.now }
    ensures within { result ≤ length runs.now }
    ensures counted { HoldsBelow (λ run. nat_lt run.request.0 request.0) runs.now result }
{
    runs.partition_point(|run| run.request.0 < request.0)
}

/// How many runs are of requests up to one.
fn count_through(runs: &[Run], request: RequestNo) -> usize
    requires { IsNonDecreasingBy (λ run. run.request.0) runs.now }
    ensures within { result ≤ length runs.now }
    ensures counted { HoldsBelow (λ run. nat_le run.request.0 request.0) runs.now result }
{
    runs.partition_point(|run| run.request.0 <= request.0)
}

fn sums_of(alloc: Global, runs: &[Run]) -> Result<Vec<u32>, AllocError>
    requires { count_of runs.now ≤ most_starts }
    ensures { IfOk result (λ sums. AreSums runs.now sums.items) }
{
    let mut sums = Vec::with_capacity(alloc, runs.len())?;
    let mut sum = 0;
    for run in runs {
        sum += run.count;
        sums.push(sum)?;
    }
    Ok(sums)
}

/// How many of the sums, which rise, are at most a number.
fn count_up_to(sums: &[u32], most: usize) -> usize
    requires { IsNonDecreasingBy (λ sum. sum) sums.now }
    ensures { IsCountUpTo sums.now most result }
{
    sums.partition_point(|sum| (*sum as usize) <= most)
}

/// The sum at the place before this one, or 0 before all.
fn sum_before(sums: &[u32], place: usize) -> usize
    requires { place ≤ length sums.now }
    ensures { result ≡ slice_index_or (0 ∷ sums.now) place 0 }
{
    if place == 0 {
        return 0;
    }
    sums[place - 1] as usize
}
