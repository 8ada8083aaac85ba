// What a thread does of a desk that it shares.

ghost use Rattle.lanes.specs.Solving.{IsInRange};

use crate::desk::{Desk, Sending};
use desk_book::BookStep;
use lanes::solve_plan_with;
use plan_base::Taken;
use plan_io::{Gate, MOST_LINES, Point};
use snapshot_starts::StartCache;
use std::alloc::{AllocError, Global};
use std::sync::Wait;
use std::thread::Threads;

/// Seeks the plan of what was taken, with the lock free, and publishes it.
fn seek_and_publish<S: Sending, R: Threads + Wait + Sync, G: Gate>(
    rt: &R,
    alloc: Global,
    desk: &Desk<S>,
    taken: Taken,
    cache: &mut StartCache,
    gate: &G,
) -> Result<(), AllocError>
    requires { IsInRange taken.settings }
{
    let solved = solve_plan_with(rt, alloc, taken, cache, gate)?;
    desk.held().lock(rt).publish(rt, alloc, solved, cache)
}

/// Does one line of a caller, if it is left.
fn do_line<S: Sending, R: Threads + Wait + Sync, G: Gate>(
    rt: &R,
    alloc: Global,
    desk: &Desk<S>,
    caller: u8,
    line: u32,
    cache: &mut StartCache,
    gate: &G,
) -> Result<(), AllocError> {
    let step = desk.held().lock(rt).perform(caller)?;
    match step {
        BookStep::Replied | BookStep::Over => Ok(()),
        BookStep::Taken(taken) => {
            gate.pass(Point::AfterTake { caller, line });
            seek_and_publish(rt, alloc, desk, taken, cache, gate)
        }
        BookStep::TakeOpen => desk.held().lock(rt).publish_kept(rt, alloc, caller, cache),
    }
}

/// Does the lines of a caller, one after another, as far as no other thread did them; none where there is no such caller. For a
/// plan the snapshot is taken under the lock, and the plan is sought with the lock free: so other callers' lines may come between,
/// and the plan may be stale. One cache keeps possible starts from plan to plan of the caller. Lines are counted from 1 at the
/// gate. Waits for the lock. Fails only for want of memory, and then leaves the other lines to [`finish`](crate::finish).
pub fn work<S: Sending, R: Threads + Wait + Sync, G: Gate>(
    rt: &R,
    alloc: Global,
    desk: &Desk<S>,
    caller: u8,
    gate: &G,
) -> Result<(), AllocError> {
    let mut cache = StartCache::new();
    for line in 1..=MOST_LINES {
        if !desk.held().lock(rt).has_line(caller, line - 1) {
            break;
        }
        gate.pass(Point::BeforeLine { caller, line });
        do_line(rt, alloc, desk, caller, line, &mut cache, gate)?;
        gate.pass(Point::AfterLine { caller, line });
    }
    Ok(())
}
