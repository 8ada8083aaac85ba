//! A session from its words to its status.
ghost use Rattle.std.specs.Prelude.{◌≡◌, ◌≢◌, ◌⊎◌, ◌↔◌, ℕ, [], map, false, Some, None, IfOk, OnErr, string_bytes};
ghost use Rattle.plan_io.specs.LinesSeen.{HasLine};
ghost use Rattle.plan_io.specs.Sink.{IsPutCause};
ghost use Rattle.desk_core.specs.Desk.{start};
ghost use Rattle.session.specs.declared.words.Mode.TheVariants.{Session, Workload};
ghost use Rattle.session.specs.Words.{mode_of};
ghost use Rattle.session.specs.Summary.{WritesSummary, IsWorkloadRun};
ghost use Rattle.session.specs.Session.{IsSession, IsSessionCause, IsWritingCause, IsGathered, IsWrittenOn};

use crate::line::do_line;
use crate::replies::{GATHERED, write_replies};
use crate::tally::tell_workload;
use crate::words::{Mode, mode_of};
use desk_core::State;
use plan_io::{LineAnswer, Lines, MOST_BYTES, MOST_LINES, PutAnswer, Sink, Source, Status, put};
use snapshot_starts::StartCache;
use std::alloc::{AllocError, Global};
use std::thread::Threads;

/// Whether replies are to be written before the next line: where a caller may wait for them, since no whole line is at hand,
/// or where they are many.
fn is_due(reader: &Lines, replies: &[u8]) -> bool
    ensures { result ≡ false → HasLine reader.now }
{
    !reader.has_line() || replies.len() >= GATHERED
}

/// Writes the replies where they are due.
fn write_due<K: Sink>(sink: &mut K, reader: &Lines, replies: &mut Vec<u8>) -> PutAnswer
    ensures due { HasLine reader.now ⊎ (replies.new.items ≡ []) }
    ensures bytes { IsWrittenOn (K.written sink.old) (K.written sink.new) result replies.old.items replies.new.items }
    ensures cause { IsPutCause (K.faults sink.old) (K.faults sink.new) result }
{
    if is_due(reader, replies.as_slice()) {
        return write_replies(sink, replies);
    }
    PutAnswer::Done
}

/// Does each line of the source on a new desk, and writes the replies before it waits for more lines. One cache keeps possible
/// starts from plan to plan. Where memory is wanting, replies that are not written yet stay.
fn answer_lines<R: Threads + Sync, S: Source, K: Sink>(
    rt: &R,
    alloc: Global,
    source: &mut S,
    sink: &mut K,
    state: &mut State,
    replies: &mut Vec<u8>,
) -> Result<Status, AllocError>
    requires start { state.old ≡ start }
    requires none { replies.old.items ≡ [] }
    ensures session { IfOk result (IsSession (S.left source.old) (S.left source.new) (K.written sink.old) (K.written sink.new)) }
    ensures words { IfOk result (λ status. status ≢ Status.Words) }
    ensures cause { IfOk result (IsSessionCause (S.faults source.old) (S.faults source.new) (K.faults sink.old) (K.faults sink.new)) }
    ensures gathered { OnErr result (IsGathered (S.left source.old) (S.left source.new) (K.written sink.old) (K.written sink.new) replies.new.items) }
{
    let mut reader = Lines::new(alloc, MOST_BYTES, u64::from(MOST_LINES))?;
    let mut cache = StartCache::new();
    let mut done: u32 = 0;
    loop {
        match write_due(sink, &reader, replies) {
            PutAnswer::Done => (),
            PutAnswer::WriteFault => return Ok(Status::WriteFault),
        }
        match reader.next(source)? {
            LineAnswer::Line(line) => {
                done += 1;
                do_line(rt, alloc, state, &mut cache, done, &line, replies)?;
            }
            LineAnswer::End => return Ok(Status::Done),
            LineAnswer::ReadFault => return Ok(Status::ReadFault),
            LineAnswer::InputOver => return Ok(Status::InputOver),
        }
    }
}

/// Does each line of the source, and writes all replies that there are.
fn play<R: Threads + Sync, S: Source, K: Sink>(
    rt: &R,
    alloc: Global,
    source: &mut S,
    sink: &mut K,
) -> Status
    ensures session { IsSession (S.left source.old) (S.left source.new) (K.written sink.old) (K.written sink.new) result }
    ensures words { result ≢ Status.Words }
    ensures cause { IsSessionCause (S.faults source.old) (S.faults source.new) (K.faults sink.old) (K.faults sink.new) result }
{
    let mut state = State::empty(alloc);
    let mut replies = Vec::new(alloc);
    match answer_lines(rt, alloc, source, sink, &mut state, &mut replies) {
        Ok(status) => status,
        Err(_) => {
            // The lines that were done before keep their replies.
            let _ = write_replies(sink, &mut replies);
            Status::NoMemory
        }
    }
}

/// Writes the line that sums up a workload.
fn write_summary<K: Sink>(sink: &mut K, text: &[u8]) -> Status
    ensures written { WritesSummary (K.written sink.old) (K.written sink.new) text.now result }
    ensures memory { result ≢ Status.NoMemory }
    ensures cause { IsWritingCause (K.faults sink.old) (K.faults sink.new) result }
{
    match put(sink, text) {
        PutAnswer::Done => Status::Done,
        PutAnswer::WriteFault => Status::WriteFault,
    }
}

/// Does the lines of a workload on a new desk, and writes their summary.
fn run_workload<R: Threads + Sync, K: Sink>(
    rt: &R,
    alloc: Global,
    number: u32,
    sink: &mut K,
) -> Status
    ensures written { IsWorkloadRun number (K.written sink.old) (K.written sink.new) result }
    ensures unwritten { result ≡ Status.NoMemory → sink.new ≡ sink.old }
    ensures cause { IsWritingCause (K.faults sink.old) (K.faults sink.new) result }
{
    let mut state = State::empty(alloc);
    match tell_workload(rt, alloc, number, &mut state) {
        Ok(text) => write_summary(sink, text.as_slice()),
        Err(_) => Status::NoMemory,
    }
}

/// Runs a session or a workload. The words are `session`, or `workload` and a number of one to ten digits, at most
/// 4,294,967,295, with or without one `--` among them; else the status is `Words` and nothing is read or written.
///
/// In a session lines are read and done in order, at most 67,108,864 bytes and 65,536 lines, to the end of the source, a fault
/// or a limit; the replies of the lines before it are written. They are written before the source is read again, so that
/// whoever waits for a reply gets it, and else once they have 65,536 bytes. The status is `Done` at the end of the source,
/// `ReadFault` where a read fails, and `InputOver` beyond a limit; `WriteFault` where a write fails, and `NoMemory` for want of
/// memory: what was written is then a beginning of the replies, and at `WriteFault` not all of them.
///
/// With a workload nothing is read: the lines of [`Workload`](workload::Workload) with four workers are done, and one line is
/// written, the summary of what is replied to them. At `WriteFault` less than that line was written, and at `NoMemory` nothing.
///
/// The runtime is for the threads that seek plans.
pub fn run_session<R: Threads + Sync, S: Source, K: Sink>(
    rt: &R,
    alloc: Global,
    words: &[String],
    source: &mut S,
    sink: &mut K,
) -> Status
    ensures words { (result ≡ Status.Words) ↔ (mode_of (map string_bytes words.now) ≡ None) }
    ensures untouched { result ≡ Status.Words → (source.new ≡ source.old) × (sink.new ≡ sink.old) }
    ensures session { mode_of (map string_bytes words.now) ≡ Some Session
        → IsSession (S.left source.old) (S.left source.new) (K.written sink.old) (K.written sink.new) result }
    ensures workload { (number : ℕ) → mode_of (map string_bytes words.now) ≡ Some (Workload number)
        → (source.new ≡ source.old) × IsWorkloadRun number (K.written sink.old) (K.written sink.new) result }
    ensures unwritten { (number : ℕ) → mode_of (map string_bytes words.now) ≡ Some (Workload number) → result ≡ Status.NoMemory → sink.new ≡ sink.old }
    ensures cause { IsSessionCause (S.faults source.old) (S.faults source.new) (K.faults sink.old) (K.faults sink.new) result }
{
    match mode_of(words) {
        Some(Mode::Session) => play(rt, alloc, source, sink),
        Some(Mode::Workload(number)) => run_workload(rt, alloc, number, sink),
        None => Status::Words,
    }
}
