//! A session of several callers, from its words to its status.
ghost use Rattle.std.specs.Prelude.{◌≡◌, ◌≢◌, ◌↔◌, ℕ, IsSome, IfOk};
ghost use Rattle.desk_book.specs.Seen.{IsOver};
ghost use Rattle.session.specs.Session.{IsSessionCause, IsWritingCause};
ghost use Rattle.session.specs.Live.{AreLiveWords, IsLive};
ghost use Rattle.session.specs.LiveParts.{IsTold};

mod passes;
mod reading;
mod same;
mod writing;

use desk_book::Book;
use plan_base::MOST_CALLERS;
use plan_io::{Gate, Sink, Source, Status};
use reading::{Input, read_input};
use std::alloc::{AllocError, Global};
use std::sync::Wait;
use std::thread::Threads;
use writing::{write_history, write_refusal};

/// How the threads of callers share their desk.
#[derive(Clone, Copy)]
enum Sharing {
    /// It lies under a lock.
    Lock,
    /// Each calls it through a pass.
    Passes,
}

/// What the words ask for, if they are the one word `live` or the one word `passes`.
fn sharing_of(words: &[String]) -> Option<Sharing>
    ensures { IsSome result ↔ AreLiveWords words.now }
{
    let [only] = words else {
        return None;
    };
    match only.as_str() {
        "live" => Some(Sharing::Lock),
        "passes" => Some(Sharing::Passes),
        _ => None,
    }
}

/// Does all lines of a book, those of each caller in a thread of its own. Fails only for want of memory.
fn play_by<R: Threads + Wait + Sync, G: Gate>(
    rt: &R,
    alloc: Global,
    sharing: Sharing,
    book: Book,
    gate: &G,
) -> Result<Book, AllocError>
    ensures scripts { IfOk result (λ done. done.scripts ≡ book.scripts) }
    ensures over { IfOk result (λ done. (caller : ℕ) → IsOver done caller) }
{
    match sharing {
        Sharing::Lock => desk_lock::play(rt, alloc, book, gate),
        Sharing::Passes => passes::play(rt, alloc, book, gate),
    }
}

/// Does the lines of a book, each caller's in a thread of its own, and writes what was done.
fn do_lines<R: Threads + Wait + Sync, K: Sink, G: Gate>(
    rt: &R,
    alloc: Global,
    sharing: Sharing,
    book: Book,
    sink: &mut K,
    gate: &G,
) -> Status
    ensures told { IsTold book.scripts (K.written sink.old) (K.written sink.new) result }
    ensures cause { IsWritingCause (K.faults sink.old) (K.faults sink.new) result }
{
    let Ok(done) = play_by(rt, alloc, sharing, book, gate) else {
        return Status::NoMemory;
    };
    write_history(alloc, &done, sink)
}

/// Reads all lines, and then does them and writes what was done.
fn play<R: Threads + Wait + Sync, S: Source, K: Sink, G: Gate>(
    rt: &R,
    alloc: Global,
    sharing: Sharing,
    source: &mut S,
    sink: &mut K,
    gate: &G,
) -> Status
    ensures live { IsLive (S.left source.old) (S.left source.new) (K.written sink.old) (K.written sink.new) result }
    ensures words { result ≢ Status.Words }
    ensures unread { result ≡ Status.ReadFault → sink.new ≡ sink.old }
    ensures over { result ≡ Status.InputOver → sink.new ≡ sink.old }
    ensures cause { IsSessionCause (S.faults source.old) (S.faults source.new) (K.faults sink.old) (K.faults sink.new) result }
{
    let Ok(mut book) = Book::new(alloc, MOST_CALLERS) else {
        return Status::NoMemory;
    };
    match read_input(alloc, source, &mut book) {
        Ok(Input::Whole) => do_lines(rt, alloc, sharing, book, sink, gate),
        Ok(Input::NoCaller(number)) => write_refusal(alloc, number, sink),
        Ok(Input::ReadFault) => Status::ReadFault,
        Ok(Input::InputOver) => Status::InputOver,
        Err(_) => Status::NoMemory,
    }
}

/// Runs a session of eight callers. The words are the one word `live` or the one word `passes`; else the status is `Words` and
/// nothing is read or written. With `live` the callers' threads share the desk under a lock, with `passes` each calls it through a
/// pass; all that is said here holds of both.
///
/// Each line is an object with a `caller`, a whole number from 0 to 7. All lines are read first, at most 16,777,216 bytes and
/// 65,536 lines. Where a read fails or there is more, the status is `ReadFault` or `InputOver`, and nothing is done or written.
/// At the first line that names no caller, since it is too long, no object, or its `caller` isn't there or is another value, the
/// status is `NoCaller`: `{"line":n,"no":8}` is written and a newline, `n` being the line's number from 1, and nothing is done.
///
/// Then each caller's lines are done in their order, by a thread of its own where one can be made, and the text of the whole
/// history is written: the status is `Done`, or `WriteFault` where a write fails before its end. At `NoMemory`, for want of memory,
/// a beginning of it was written, or nothing, as always where not all lines were read or one names no caller. Which of the
/// histories it is that the scripts may have depends on the threads. It may wait for them, and its contract holds if it returns.
///
/// The threads pass the gate at each [`Point`](plan_io::Point).
pub fn run_live<R: Threads + Wait + Sync, S: Source, K: Sink, G: Gate>(
    rt: &R,
    alloc: Global,
    words: &[String],
    source: &mut S,
    sink: &mut K,
    gate: &G,
) -> Status
    ensures words { (result ≡ Status.Words) ↔ ¬ (AreLiveWords words.now) }
    ensures untouched { result ≡ Status.Words → (source.new ≡ source.old) × (sink.new ≡ sink.old) }
    ensures unread { result ≡ Status.ReadFault → sink.new ≡ sink.old }
    ensures over { result ≡ Status.InputOver → sink.new ≡ sink.old }
    ensures live { IsLive (S.left source.old) (S.left source.new) (K.written sink.old) (K.written sink.new) result }
    ensures cause { IsSessionCause (S.faults source.old) (S.faults source.new) (K.faults sink.old) (K.faults sink.new) result }
{
    let Some(sharing) = sharing_of(words) else {
        return Status::Words;
    };
    play(rt, alloc, sharing, source, sink, gate)
}
