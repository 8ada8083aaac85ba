//! plancheck: documents of snapshots and claims on standard input, what is found of them on standard output. Its checks
//! stand on nothing that makes plans.
#![tactic(auto)]

ghost use Rattle.std.specs.Prelude.{◌≡◌, ◌↔◌, ◌⊎◌, codes};
ghost use Rattle.plan_io.specs.Words.{IsOneWord};
ghost use Rattle.plan_io.specs.Document.{IsDocumentRun, IsDocumentCause};
ghost use Rattle.plan_doc.specs.Check.{IsCheckAnswer};
ghost use Rattle.group_trees.specs.Documents.{IsForestAnswer};
ghost use Rattle.explain.specs.Run.{IsExplainText};
ghost use Rattle.rapid.specs.Run.{IsRapidAnswer};

use explain::run_explain;
use group_trees::run_forest;
use plan_doc::run_check;
use plan_io::{Sink, Source, Status, StdSink, StdSource, exit_code, program_words};
use rapid::run_rapid;
use std::alloc::Global;
use std::process::ExitCode;

/// Does what the word says. Where there is another word or none, or more than one, the status is `Words` and nothing is
/// read or written.
fn run<S: Source, K: Sink>(alloc: Global, words: &[String], source: &mut S, sink: &mut K) -> Status
    ensures words { (result ≡ Status.Words) ↔ ¬ (IsOneWord (codes "check") words.now ⊎ IsOneWord (codes "forest") words.now
        ⊎ IsOneWord (codes "explain") words.now ⊎ IsOneWord (codes "rapid") words.now) }
    ensures untouched { result ≡ Status.Words → (source.new ≡ source.old) × (sink.new ≡ sink.old) }
    ensures unread { result ≡ Status.ReadFault → sink.new ≡ sink.old }
    ensures over { result ≡ Status.InputOver → sink.new ≡ sink.old }
    ensures unwritten { result ≡ Status.NoMemory → sink.new ≡ sink.old }
    ensures check { IsOneWord (codes "check") words.now → IsDocumentRun IsCheckAnswer
        (S.left source.old) (S.left source.new) (K.written sink.old) (K.written sink.new) result }
    ensures forest { IsOneWord (codes "forest") words.now → IsDocumentRun IsForestAnswer
        (S.left source.old) (S.left source.new) (K.written sink.old) (K.written sink.new) result }
    ensures explain { IsOneWord (codes "explain") words.now → IsDocumentRun IsExplainText
        (S.left source.old) (S.left source.new) (K.written sink.old) (K.written sink.new) result }
    ensures rapid { IsOneWord (codes "rapid") words.now → IsDocumentRun IsRapidAnswer
        (S.left source.old) (S.left source.new) (K.written sink.old) (K.written sink.new) result }
    ensures cause { IsDocumentCause
        (S.faults source.old) (S.faults source.new) (K.faults sink.old) (K.faults sink.new) result }
{
    let word = match words.first() {
        Some(word) => word.as_str(),
        None => "",
    };
    match word {
        "forest" => run_forest(alloc, words, source, sink),
        "explain" => run_explain(alloc, words, source, sink),
        "rapid" => run_rapid(alloc, words, source, sink),
        _ => run_check(alloc, words, source, sink),
    }
}

/// What is written on standard error, where there is something to say.
fn message(status: Status) -> Option<&'static str> {
    match status {
        Status::Words => Some("usage: plancheck check | forest | explain | rapid < DOCUMENT"),
        Status::ReadFault => Some("plancheck: a read failed"),
        Status::WriteFault => Some("plancheck: a write failed"),
        Status::NoMemory => Some("plancheck: out of memory"),
        Status::InputOver => Some("plancheck: the input has too many bytes"),
        Status::Done | Status::NoDocument | Status::No | Status::NoCaller => None,
    }
}

fn main(rt: HostRuntime) -> ExitCode {
    let status = match program_words(&rt) {
        Ok(words) => {
            let mut source = StdSource::new(rt.stdin());
            let mut sink = StdSink::new(rt.stdout());
            run(rt.alloc(), words.as_slice(), &mut source, &mut sink)
        }
        Err(status) => status,
    };
    if let Some(text) = message(status) {
        let _ = eprintln!(rt; "{text}");
    }
    exit_code(status)
}
