// The earliest start of a request that shares no slice with a plan.

ghost use Rattle.std.specs.Prelude.{◌≡◌, MatchOption};
ghost use Rattle.plan_base.specs.Starts.{size_of};
ghost use Rattle.repair.specs.Entries.{IsEntry};
ghost use Rattle.repair.specs.Apart.{IsPossibleRun, HasNoneApart, IsEarliestApart, limit_of, IsBetter};

use crate::draft::Draft;
use crate::entry::Entry;
use plan_base::Placement;
use snapshot_starts::Run;

/// The earliest start of a request whose slices are free, on the lowest telescope among equals.
pub(crate) fn earliest(draft: &Draft<'_>, entry: &Entry) -> Option<Placement>
    requires { IsEntry draft.now.snapshot entry.now }
    ensures { MatchOption result
        (HasNoneApart draft.now.snapshot draft.now.placed entry.now.request.0)
        (IsEarliestApart draft.now.snapshot draft.now.placed entry.now.request.0) }
{
    draft.recall();
    let mut best = None;
    for run in entry.runs.as_slice() {
        best = better(draft, *run, entry.size, best);
    }
    best
}

/// The first start of the run whose slices are free, if it begins before the best start so far, or else that one.
fn better(draft: &Draft<'_>, run: Run, size: u32, best: Option<Placement>) -> Option<Placement>
    requires run { IsPossibleRun draft.now.snapshot run }
    requires size { size ≡ size_of draft.now.snapshot run.request.0 }
    ensures { IsBetter draft.now.snapshot draft.now.placed run best result }
{
    match draft.first_free(run, size, limit_of(best)) {
        Some(slice) => Some(Placement {
            request: run.request,
            telescope: run.telescope,
            slice,
        }),
        None => best,
    }
}

/// Where a start has to begin before to be better than this one.
fn limit_of(best: Option<Placement>) -> u32
    ensures { result ≡ limit_of best }
{
    match best {
        Some(start) => start.slice.0,
        None => u32::MAX,
    }
}
