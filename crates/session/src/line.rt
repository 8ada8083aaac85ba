//! What is done with one line.
ghost use Rattle.std.specs.Prelude.{◌≡◌, ◌<◌, ◌++◌, IfOk, OnOk, OnErr, IsSome};
ghost use Rattle.plan_base.specs.Limits.{most_version};
ghost use Rattle.desk_events.specs.Entry.{text_of_entry};
ghost use Rattle.desk_events.specs.Laws.{IsWritableEntry};
ghost use Rattle.desk_events.specs.Line.{command_of_line};
ghost use Rattle.desk_events.specs.Ranges.{IsCommand};
ghost use Rattle.desk_core.specs.History.{IsPlanning, after_publish};
ghost use Rattle.desk_book.specs.Doing.{IsTakenOf};
ghost use Rattle.lanes.specs.Solving.{IsInRange};
ghost use Rattle.session.specs.Line.{IsPlanReply, RepliesAtLast, AddsLine, AddsPublish};

use desk_book::{apply_read, is_plan, publish_found, read_line, take_for};
use desk_core::State;
use desk_events::{Command, CommandFault, EventEntry, Reply, What, write_entry};
use lanes::solve_plan_with;
use plan_base::{Solved, Taken};
use plan_io::{NoGate, ScriptLine};
use snapshot_starts::StartCache;
use std::alloc::{AllocError, Global};
use std::thread::Threads;

/// The only caller of a session.
const CALLER: u8 = 0;

/// Adds the text of an entry, or nothing where memory is wanting.
fn add_entry(entry: EventEntry, replies: &mut Vec<u8>) -> Result<(), AllocError>
    ensures ok { OnOk result (replies.new.items ≡ replies.old.items ++ text_of_entry entry) }
    ensures writable { OnOk result (IsWritableEntry entry) }
    ensures err { OnErr result (replies.new.items ≡ replies.old.items) }
{
    write_entry(&entry, replies)
}

/// Does a line that is one step, and adds its entry.
fn do_step(
    state: &mut State,
    line: u32,
    read: Result<Command, CommandFault>,
    replies: &mut Vec<u8>,
) -> Result<(), AllocError>
    requires version { state.old.version < most_version }
    requires ranges { IfOk read IsCommand }
    requires step { ¬ (IsPlanning state.old read) }
    ensures { AddsLine state.old state.new line read replies.old.items replies.new.items result }
{
    let version = state.version();
    let reply = apply_read(state, read)?;
    let entry = EventEntry {
        caller: CALLER,
        line,
        what: What::Line,
        version,
        reply,
    };
    add_entry(entry, replies)
}

/// Takes the snapshot of an opened desk, with the settings that its plan is sought with, which are in their ranges.
fn take(state: &State) -> Result<Taken, AllocError>
    requires { IsSome state.now.desk }
    ensures taken { IfOk result (IsTakenOf state.now) }
    ensures range { IfOk result (λ taken. IsInRange taken.settings) }
{
    // The call tells what holds of every state, so that the settings are known to be in their ranges.
    let _ = state.version();
    take_for(CALLER, state)
}

/// Publishes what was found for the desk as it is, and says what is replied.
fn publish_solved(state: &mut State, solved: Solved) -> Result<Reply, AllocError>
    requires version { state.old.version < most_version }
    requires taken { IsTakenOf state.old solved.taken }
    ensures reply { IfOk result (IsPlanReply state.old) }
    ensures left { IfOk result (λ reply. state.new ≡ after_publish state.old reply) }
{
    let (taken, outcome) = solved.into_parts();
    let reply = publish_found(state, taken, outcome)?;
    Ok(reply)
}

/// Seeks the plan of an opened desk and publishes it, and says what is replied.
fn seek<R: Threads + Sync>(
    rt: &R,
    alloc: Global,
    state: &mut State,
    cache: &mut StartCache,
) -> Result<Reply, AllocError>
    requires version { state.old.version < most_version }
    requires opened { IsSome state.old.desk }
    ensures reply { IfOk result (IsPlanReply state.old) }
    ensures left { IfOk result (λ reply. state.new ≡ after_publish state.old reply) }
{
    let taken = take(state)?;
    let solved = solve_plan_with(rt, alloc, taken, cache, &NoGate)?;
    publish_solved(state, solved)
}

/// Seeks the plan of an opened desk and publishes it, and adds its entry.
fn publish<R: Threads + Sync>(
    rt: &R,
    alloc: Global,
    state: &mut State,
    cache: &mut StartCache,
    line: u32,
    replies: &mut Vec<u8>,
) -> Result<(), AllocError>
    requires version { state.old.version < most_version }
    requires opened { IsSome state.old.desk }
    ensures { AddsPublish state.old state.new line replies.old.items replies.new.items result }
{
    let version = state.version();
    let reply = seek(rt, alloc, state, cache)?;
    let entry = EventEntry {
        caller: CALLER,
        line,
        what: What::Publish,
        version,
        reply,
    };
    add_entry(entry, replies)
}

/// Does a line that asks for a plan of an opened desk: adds its Take, and then its Publish.
fn do_plan<R: Threads + Sync>(
    rt: &R,
    alloc: Global,
    state: &mut State,
    cache: &mut StartCache,
    line: u32,
    read: &Result<Command, CommandFault>,
    replies: &mut Vec<u8>,
) -> Result<(), AllocError>
    requires version { state.old.version < most_version }
    requires planning { IsPlanning state.old read.now }
    ensures { AddsLine state.old state.new line read.now replies.old.items replies.new.items result }
{
    let taken = EventEntry {
        caller: CALLER,
        line,
        what: What::Take,
        version: state.version(),
        reply: Reply::Taken,
    };
    add_entry(taken, replies)?;
    publish(rt, alloc, state, cache, line, replies)
}

/// Does a line, and adds the text of its entries to the replies. Where memory is wanting, those that were added stay.
pub(crate) fn do_line<R: Threads + Sync>(
    rt: &R,
    alloc: Global,
    state: &mut State,
    cache: &mut StartCache,
    number: u32,
    line: &ScriptLine,
    replies: &mut Vec<u8>,
) -> Result<(), AllocError>
    requires version { state.old.version < most_version }
    ensures { AddsLine state.old state.new number (command_of_line line.now) replies.old.items replies.new.items result }
{
    let read = read_line(alloc, line)?;
    if is_plan(&read) && state.is_opened() {
        return do_plan(rt, alloc, state, cache, number, &read, replies);
    }
    do_step(state, number, read, replies)
}

/// Does a line, and says what is replied at last: where it asks for a plan, that of its Publish.
pub(crate) fn reply_to<R: Threads + Sync>(
    rt: &R,
    alloc: Global,
    state: &mut State,
    cache: &mut StartCache,
    line: &ScriptLine,
) -> Result<Reply, AllocError>
    requires version { state.old.version < most_version }
    ensures { IfOk result (λ reply. RepliesAtLast state.old (command_of_line line.now) reply state.new) }
{
    let read = read_line(alloc, line)?;
    if is_plan(&read) && state.is_opened() {
        return seek(rt, alloc, state, cache);
    }
    apply_read(state, read)
}
