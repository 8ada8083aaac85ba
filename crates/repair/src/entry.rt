// What is known of a request when a start is sought for it.

ghost use Rattle.std.specs.Prelude.{◌≡◌, IfOk};
ghost use Rattle.plan_base.specs.Requests.{IsKnown};
ghost use Rattle.snapshot_starts.specs.Runs.{AreAllStarts};
ghost use Rattle.repair.specs.Entries.{IsEntry};

use plan_base::{ListOf, RequestNo, Snapshot, slices_for};
use snapshot_starts::{Run, Starts};
use std::alloc::{AllocError, Global};

/// A request, with the runs of its possible starts.
pub(crate) struct Entry {
    /// Its number.
    pub request: RequestNo,
    /// Its place among all.
    pub place: usize,
    /// How many slices it takes.
    pub size: u32,
    /// By telescope, then slice.
    pub runs: ListOf<Run>,
}

impl Drop for Entry {
    fn drop(self) {
        let Self {
            request: _,
            place: _,
            size: _,
            runs: _,
        } = self;
    }
}

/// What is known of a request of the snapshot. Fails only for want of memory.
pub(crate) fn entry_of(
    alloc: Global,
    snapshot: &Snapshot,
    starts: &Starts,
    request: RequestNo,
) -> Result<Entry, AllocError>
    requires known { IsKnown snapshot.now request.0 }
    requires starts { AreAllStarts snapshot.now starts.now }
    ensures entry { IfOk result (IsEntry snapshot.now) }
    ensures number { IfOk result (λ entry. entry.request ≡ request) }
{
    let place = snapshot.known_place(request);
    let seconds = u64::from(snapshot.request_at(place).seconds);
    let len = u64::from(snapshot.parts().len);
    let runs = Vec::from_slice(alloc, starts.runs_of(request))?;
    Ok(Entry {
        request,
        place,
        size: slices_for(len, seconds) as u32,
        runs: ListOf::from_vec(runs),
    })
}
