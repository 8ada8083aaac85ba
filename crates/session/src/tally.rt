//! A workload, done line after line and summed up.
ghost use Rattle.std.specs.Prelude.{◌≡◌, IfOk};
ghost use Rattle.desk_core.specs.Desk.{start};
ghost use Rattle.session.specs.Summary.{IsSummary, IsSummaryText};

use crate::line::reply_to;
use crate::summary::{Summary, no_summary, summary_text, with_line};
use desk_core::State;
use plan_io::{ByteList, ScriptLine};
use snapshot_starts::StartCache;
use std::alloc::{AllocError, Global};
use std::thread::Threads;
use workload::Workload;

/// How many workers seek the plan of a workload.
const WORKERS: u32 = 4;

/// Does each line of a workload on a new desk, and sums up what is replied. One cache keeps possible starts from plan to plan.
fn sum_up<R: Threads + Sync>(
    rt: &R,
    alloc: Global,
    number: u32,
    state: &mut State,
) -> Result<Summary, AllocError>
    requires { state.old ≡ start }
    ensures { IfOk result (IsSummary number) }
{
    let mut workload = Workload::new(number, WORKERS);
    let mut cache = StartCache::new();
    let mut summary = no_summary();
    while let Some(bytes) = workload.next(alloc)? {
        let line = ScriptLine::Bytes(ByteList::from(bytes));
        let reply = reply_to(rt, alloc, state, &mut cache, &line)?;
        summary = with_line(summary, &reply)?;
    }
    Ok(summary)
}

/// The line that sums up a workload, with its newline.
pub(crate) fn tell_workload<R: Threads + Sync>(
    rt: &R,
    alloc: Global,
    number: u32,
    state: &mut State,
) -> Result<Vec<u8>, AllocError>
    requires { state.old ≡ start }
    ensures { IfOk result (λ text. IsSummaryText number text.items) }
{
    let summary = sum_up(rt, alloc, number, state)?;
    summary_text(alloc, summary)
}
