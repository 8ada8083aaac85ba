// The explanation of a claim in a document, from its words to its status.

ghost use Rattle.std.specs.Prelude.{◌≡◌, ◌↔◌, codes, IfOk, Ok};
ghost use Rattle.plan_io.specs.Words.{IsOneWord};
ghost use Rattle.plan_io.specs.Document.{IsDocumentRun, IsDocumentCause};
ghost use Rattle.plan_doc.specs.Publication.{publication_of_bytes};
ghost use Rattle.explain.specs.Run.{IsExplainText};

use crate::answer::ExplainAnswer;
use crate::told::explained_answer;
use crate::why::explain;
use plan_base::Verdict;
use plan_doc::{DocFault, Publication, VerdictDoc, answer_line, read_publication_bytes};
use plan_io::{Answer, Answers, Said, Sink, Source, Status, run_document};
use std::alloc::{AllocError, Global};

/// The answer to a publication.
fn answer_to(alloc: Global, bytes: &[u8], publication: &Publication) -> Result<Answer, AllocError>
    requires { publication_of_bytes bytes.now ≡ Ok publication.now }
    ensures { IfOk result (λ a. IsExplainText bytes.now a.text.items a.said) }
{
    match explain(alloc, &publication.snapshot, &publication.claim)? {
        ExplainAnswer::Explained(explanation) => {
            explained_answer(alloc, &publication.claim, &explanation)
        }
        ExplainAnswer::No(reason) => {
            answer_line(alloc, &VerdictDoc(Verdict::No(reason)), Said::No)
        }
    }
}

/// Explains.
struct Explain;

impl Answers for Explain {
    ghost is_answer = { IsExplainText };

    fn answer(&self, alloc: Global, input: &[u8]) -> Result<Answer, AllocError> {
        match read_publication_bytes(alloc, input) {
            Ok(publication) => answer_to(alloc, input, &publication),
            Err(DocFault::NoMemory) => Err(AllocError),
            Err(fault) => answer_line(alloc, &fault, Said::NoDocument),
        }
    }
}

/// Explains what a claim leaves out. The word is `explain`; statuses, reading and writing are those of
/// [`run_document`]. What was read is one document, as [`read_publication`] reads it. Where the claim is certified, a
/// line with its value and bound is written, and then a line for each request that it leaves out, as [`explain`] says it,
/// at status `Done`. Else one line is written: the first reason why it isn't certified, at status `No`, or the
/// document's first fault, at status `NoDocument`.
///
/// [`explain`]: crate::explain
/// [`read_publication`]: plan_doc::read_publication
/// [`run_document`]: plan_io::run_document
pub fn run_explain<S: Source, K: Sink>(
    alloc: Global,
    words: &[String],
    source: &mut S,
    sink: &mut K,
) -> Status
    ensures words { (result ≡ Status.Words) ↔ ¬ (IsOneWord (codes "explain") words.now) }
    ensures untouched { result ≡ Status.Words → (source.new ≡ source.old) × (sink.new ≡ sink.old) }
    ensures unread { result ≡ Status.ReadFault → sink.new ≡ sink.old }
    ensures over { result ≡ Status.InputOver → sink.new ≡ sink.old }
    ensures unwritten { result ≡ Status.NoMemory → sink.new ≡ sink.old }
    ensures explained { IsDocumentRun IsExplainText
        (S.left source.old) (S.left source.new) (K.written sink.old) (K.written sink.new) result }
    ensures cause { IsDocumentCause
        (S.faults source.old) (S.faults source.new) (K.faults sink.old) (K.faults sink.new) result }
{
    run_document(alloc, "explain", &Explain, words, source, sink)
}
