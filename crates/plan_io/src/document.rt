//! Runs that read the whole of their input, one document, and answer it.
ghost use Rattle.std.specs.Prelude.{◌≡◌, ◌↔◌, List, ℕ, IfOk};
ghost use Rattle.plan_io.specs.Words.{IsOneWord};
ghost use Rattle.plan_io.specs.Document.{IsAnswered, IsDocumentRun, IsDocumentCause, status_of};
ghost use Rattle.plan_io.specs.declared.document.Said.{Said as SaidSeen};

use crate::limits::MOST_BYTES;
use crate::program::is_word;
use crate::sink::{PutAnswer, Sink, put};
use crate::source::Source;
use crate::status::Status;
use crate::whole::{WholeAnswer, read_whole};
use std::alloc::{AllocError, Global};

/// What an answer says of a document.
#[derive(Clone, Copy)]
pub enum Said {
    /// Its claim is certified.
    Yes,
    /// Its claim isn't.
    No,
    /// It isn't a document of the kind that is asked for.
    NoDocument,
}

/// An answer to a document.
#[derive(Drop)]
pub struct Answer {
    /// Whole lines, each with its newline.
    pub text: Vec<u8>,
    /// What the text says of the document.
    pub said: Said,
}

/// A way to answer documents.
pub trait Answers {
    /// Whether a text that says so answers these bytes.
    ghost is_answer: { List ℕ → List ℕ → SaidSeen → Type 0 };

    /// The answer to the document that the bytes are. Fails only for want of memory.
    fn answer(&self, alloc: Global, input: &[u8]) -> Result<Answer, AllocError>
        ensures { IfOk result (λ a. is_answer input.now a.text.items a.said) };
}

/// The status of a run whose answer was written.
fn status_of(said: Said) -> Status
    ensures { result ≡ status_of said }
{
    match said {
        Said::Yes => Status::Done,
        Said::No => Status::No,
        Said::NoDocument => Status::NoDocument,
    }
}

/// Answers the document that the bytes are.
fn write_answer<A: Answers, K: Sink>(
    alloc: Global,
    answers: &A,
    input: &[u8],
    sink: &mut K,
) -> Status
    ensures text { IsAnswered A.is_answer input.now (K.written sink.old) (K.written sink.new) result }
    ensures cause { IsDocumentCause 0 0 (K.faults sink.old) (K.faults sink.new) result }
    ensures unwritten { result ≡ Status.NoMemory → sink.new ≡ sink.old }
{
    let Ok(answer) = answers.answer(alloc, input) else {
        return Status::NoMemory;
    };
    match put(sink, answer.text.as_slice()) {
        PutAnswer::Done => status_of(answer.said),
        PutAnswer::WriteFault => Status::WriteFault,
    }
}

/// Answers a document. The words are that one word, else the status is `Words` and nothing is read or written. The
/// source is read to its end, at most `MOST_BYTES` bytes, else the status is `ReadFault` or `InputOver` and nothing is
/// written. The answer to what was read is written, at status `Done`, `No` or `NoDocument` as it says; at `WriteFault` a
/// part of it was written, and at `NoMemory` nothing.
pub fn run_document<A: Answers, S: Source, K: Sink>(
    alloc: Global,
    word: &str,
    answers: &A,
    words: &[String],
    source: &mut S,
    sink: &mut K,
) -> Status
    ensures words { (result ≡ Status.Words) ↔ ¬ (IsOneWord word.now words.now) }
    ensures untouched { result ≡ Status.Words → (source.new ≡ source.old) × (sink.new ≡ sink.old) }
    ensures unread { result ≡ Status.ReadFault → sink.new ≡ sink.old }
    ensures over { result ≡ Status.InputOver → sink.new ≡ sink.old }
    ensures unwritten { result ≡ Status.NoMemory → sink.new ≡ sink.old }
    ensures run { IsDocumentRun A.is_answer
        (S.left source.old) (S.left source.new) (K.written sink.old) (K.written sink.new) result }
    ensures cause { IsDocumentCause
        (S.faults source.old) (S.faults source.new) (K.faults sink.old) (K.faults sink.new) result }
{
    if !is_word(words, word) {
        return Status::Words;
    }
    match read_whole(alloc, source, MOST_BYTES) {
        Ok(WholeAnswer::Bytes(bytes)) => write_answer(alloc, answers, bytes.as_slice(), sink),
        Ok(WholeAnswer::ReadFault) => Status::ReadFault,
        Ok(WholeAnswer::InputOver) => Status::InputOver,
        Err(_) => Status::NoMemory,
    }
}
