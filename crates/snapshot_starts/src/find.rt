// All possible starts of a snapshot.

ghost use Rattle.std.specs.Prelude.{◌≤◌, length, IfOk, IfErr};
ghost use Rattle.std.specs.List.{AllZip};
ghost use Rattle.plan_base.specs.Limits.{most_starts};
ghost use Rattle.snapshot_starts.specs.Runs.{AreAllStarts, IsCauseOf};
ghost use Rattle.snapshot_starts.specs.Found.{IsFoundFor, AreFound};

use crate::fault::StartFault;
use crate::found::{count_starts, runs_of};
use crate::list::Starts;
use crate::pair::{Pair, PairSlices, pairs_of};
use crate::search::Search;
use plan_base::{MOST_STARTS, Snapshot};
use rayon::prelude::*;
use std::alloc::{AllocError, Global};
use std::thread::Threads;

/// All possible starts of a snapshot, each once, in the order of request, telescope and slice. It costs each request
/// on each of its telescopes the spans of its windows, of the telescope and of the skies of its targets, but no step
/// for each slice. Fails with [`StartFault::TooManyStarts`] where there are more than 1,048,576, with their exact count, and
/// for want of memory.
pub fn starts<R: Threads + Sync>(
    rt: &R,
    alloc: Global,
    snapshot: &Snapshot,
) -> Result<Starts, StartFault>
    ensures ok { IfOk result (λ starts. AreAllStarts snapshot.now starts) }
    ensures few { IfOk result (λ starts. length starts ≤ most_starts) }
    ensures err { IfErr result (λ fault. IsCauseOf snapshot.now fault) }
{
    let search = Search::afresh(alloc, snapshot);
    let found = find_all(rt, alloc, &search)?;
    list_starts(alloc, snapshot, found.as_slice())
}

/// The starts of all pairs as a list.
pub(crate) fn list_starts(
    alloc: Global,
    snapshot: &Snapshot,
    found: &[PairSlices],
) -> Result<Starts, StartFault>
    requires { AreFound snapshot.now found.now }
    ensures ok { IfOk result (λ starts. AreAllStarts snapshot.now starts) }
    ensures few { IfOk result (λ starts. length starts ≤ most_starts) }
    ensures err { IfErr result (λ fault. IsCauseOf snapshot.now fault) }
{
    snapshot.recall_valid();
    let count = count_starts(found);
    if count > MOST_STARTS {
        return Err(StartFault::TooManyStarts { count });
    }
    let runs = runs_of(alloc, found)?;
    Ok(Starts::from_runs(alloc, runs)?)
}

/// The slices at which each pair has a possible start.
pub(crate) fn find_all<R: Threads + Sync>(
    rt: &R,
    alloc: Global,
    search: &Search<'_>,
) -> Result<Vec<PairSlices>, AllocError>
    ensures { IfOk result (λ found. AreFound search.now found.items) }
{
    let pairs = pairs_of(alloc, search.snapshot())?;
    find_for(rt, alloc, search, pairs.as_slice())?
}

fn find_for<R: Threads + Sync>(
    rt: &R,
    alloc: Global,
    search: &Search<'_>,
    pairs: &[Pair],
) -> Result<Result<Vec<PairSlices>, AllocError>, AllocError>
    ensures { IfOk result (λ answer. IfOk answer (λ found. AllZip (IsFoundFor search.now) pairs.now found.items)) }
{
    pairs
        .par_iter()
        .map(
            |pair: &Pair| -> Result<PairSlices, AllocError>
                ensures { IfOk result (IsFoundFor search.entry.now pair.now) }
            { search.slices_of_pair(alloc, *pair) },
        )
        .collect(rt, alloc)
}
