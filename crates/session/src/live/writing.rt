//! What is written of a history, and of a line that names no caller.
ghost use Rattle.std.specs.Prelude.{◌≡◌, ℕ, ◌<◌, [], length, IfOk, OnOk, OnErr};
ghost use Rattle.plan_io.specs.Sink.{IsPutCause};
ghost use Rattle.desk_core.specs.Kept.{IsState};
ghost use Rattle.desk_book.specs.Kept.{IsBook};
ghost use Rattle.desk_book.specs.Seen.{IsOver};
ghost use Rattle.session.specs.Live.{no_caller_data, no_caller_text};
ghost use Rattle.session.specs.LiveParts.{AddsEntryAt, HasGathered, TellsHistory, IsTold, IsRefused};
ghost use Rattle.session.specs.Session.{IsWritingCause};

use crate::replies::{write_many, write_replies};
use desk_book::Book;
use desk_events::write_entry;
use plan_io::{PutAnswer, Sink, Status, put};
use plan_json::{line_text, object};
use std::alloc::{AllocError, Global};

/// The line that says which line names no caller, with its newline.
#[tactic(auto, unfolding(crate::specs::Live::no_caller_data))]
fn no_caller_text(alloc: Global, number: u32) -> Result<Vec<u8>, AllocError>
    ensures { IfOk result (λ text. text.items ≡ no_caller_text number) }
{
    let object = object!(
        "line": number,
        "no": Status::NoCaller.number(),
    );
    line_text(alloc, &object)
}

/// Writes which line names no caller.
pub(crate) fn write_refusal<K: Sink>(alloc: Global, number: u32, sink: &mut K) -> Status
    ensures written { IsRefused number (K.written sink.old) (K.written sink.new) result }
    ensures cause { IsWritingCause (K.faults sink.old) (K.faults sink.new) result }
{
    let Ok(text) = no_caller_text(alloc, number) else {
        return Status::NoMemory;
    };
    match put(sink, text.as_slice()) {
        PutAnswer::Done => Status::NoCaller,
        PutAnswer::WriteFault => Status::WriteFault,
    }
}

/// Adds the text of an entry of the history, or nothing where memory is wanting.
fn add_entry(book: &Book, index: usize, replies: &mut Vec<u8>) -> Result<(), AllocError>
    requires { index < length book.now.history }
    ensures ok { OnOk result (AddsEntryAt book.now.history index replies.old.items replies.new.items) }
    ensures err { OnErr result (replies.new.items ≡ replies.old.items) }
{
    let Some(entry) = book.entry(index) else {
        unreachable!();
    };
    write_entry(entry, replies)
}

/// Writes the text of each entry of the history. Where memory is wanting, replies that are not written yet stay.
fn write_entries<K: Sink>(
    book: &Book,
    sink: &mut K,
    replies: &mut Vec<u8>,
) -> Result<PutAnswer, AllocError>
    requires { replies.old.items ≡ [] }
    ensures told { IfOk result (TellsHistory (K.written sink.old) (K.written sink.new) book.now.history) }
    ensures cause { IfOk result (IsPutCause (K.faults sink.old) (K.faults sink.new)) }
    ensures gathered { OnErr result (HasGathered (K.written sink.old) (K.written sink.new) book.now.history replies.new.items) }
{
    for index in 0..book.entries() {
        add_entry(book, index, replies)?;
        match write_many(sink, replies) {
            PutAnswer::Done => (),
            PutAnswer::WriteFault => return Ok(PutAnswer::WriteFault),
        }
    }
    Ok(write_replies(sink, replies))
}

/// Recalls what is known of every book, and of the state that its history leaves. It does nothing.
fn recall(book: &Book)
    ensures book { IsBook book.now }
    ensures state { IsState book.now.state }
{
    let _ = book.callers();
    let _ = book.state().version();
}

/// Writes the history of a book in which nothing is left to do.
pub(crate) fn write_history<K: Sink>(alloc: Global, book: &Book, sink: &mut K) -> Status
    requires { (caller : ℕ) → IsOver book.now caller }
    ensures told { IsTold book.now.scripts (K.written sink.old) (K.written sink.new) result }
    ensures cause { IsWritingCause (K.faults sink.old) (K.faults sink.new) result }
{
    recall(book);
    let mut replies = Vec::new(alloc);
    match write_entries(book, sink, &mut replies) {
        Ok(PutAnswer::Done) => Status::Done,
        Ok(PutAnswer::WriteFault) => Status::WriteFault,
        Err(_) => {
            // The entries before keep their replies.
            let _ = write_replies(sink, &mut replies);
            Status::NoMemory
        }
    }
}
