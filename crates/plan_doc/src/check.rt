// The check of a claim in a document, from its words to its status.

ghost use Rattle.std.specs.Prelude.{◌≡◌, ◌≢◌, ◌↔◌, codes, IfOk, IfErr, Err};
ghost use Rattle.plan_io.specs.Words.{IsOneWord};
ghost use Rattle.plan_io.specs.Document.{IsDocumentRun, IsDocumentCause};
ghost use Rattle.plan_doc.specs.declared.fault.DocFault.TheVariants as doc;
ghost use Rattle.plan_doc.specs.Publication.{publication_of_bytes};
ghost use Rattle.plan_doc.specs.Check.{IsJudged, IsCheckAnswer, said_of};

use crate::fault::DocFault;
use crate::read::read_publication_bytes;
use crate::reason::VerdictDoc;
use crate::write::answer_line;
use bound_checker::check;
use plan_base::Verdict;
use plan_io::{Answer, Answers, Said, Sink, Source, Status, run_document};
use std::alloc::{AllocError, Global};

/// The verdict on the publication that the bytes are.
fn judge(alloc: Global, bytes: &[u8]) -> Result<Verdict, DocFault>
    ensures verdict { IfOk result (IsJudged bytes.now) }
    ensures fault { IfErr result (λ e. e ≢ doc.NoMemory → publication_of_bytes bytes.now ≡ Err e) }
{
    let publication = read_publication_bytes(alloc, bytes)?;
    Ok(check(alloc, &publication.snapshot, &publication.claim)?)
}

/// What the verdict says of a document.
fn said_of(verdict: Verdict) -> Said
    ensures { result ≡ said_of verdict }
{
    match verdict {
        Verdict::Yes { .. } => Said::Yes,
        Verdict::No(_) => Said::No,
    }
}

/// Checks.
struct Check;

impl Answers for Check {
    ghost is_answer = { IsCheckAnswer };

    fn answer(&self, alloc: Global, input: &[u8]) -> Result<Answer, AllocError> {
        match judge(alloc, input) {
            Ok(verdict) => answer_line(alloc, &VerdictDoc(verdict), said_of(verdict)),
            Err(DocFault::NoMemory) => Err(AllocError),
            Err(fault) => answer_line(alloc, &fault, Said::NoDocument),
        }
    }
}

/// Checks a claim. The word is `check`; statuses, reading and writing are those of [`run_document`]. What was read is one
/// document, as [`read_publication`] reads it, and one line is written: the verdict, at status `Done` where it is Yes and
/// at `No` where it is No, or the document's first fault, at status `NoDocument`.
///
/// [`read_publication`]: crate::read_publication
/// [`run_document`]: plan_io::run_document
pub fn run_check<S: Source, K: Sink>(
    alloc: Global,
    words: &[String],
    source: &mut S,
    sink: &mut K,
) -> Status
    ensures words { (result ≡ Status.Words) ↔ ¬ (IsOneWord (codes "check") words.now) }
    ensures untouched { result ≡ Status.Words → (source.new ≡ source.old) × (sink.new ≡ sink.old) }
    ensures unread { result ≡ Status.ReadFault → sink.new ≡ sink.old }
    ensures over { result ≡ Status.InputOver → sink.new ≡ sink.old }
    ensures unwritten { result ≡ Status.NoMemory → sink.new ≡ sink.old }
    ensures check { IsDocumentRun IsCheckAnswer
        (S.left source.old) (S.left source.new) (K.written sink.old) (K.written sink.new) result }
    ensures cause { IsDocumentCause
        (S.faults source.old) (S.faults source.new) (K.faults sink.old) (K.faults sink.new) result }
{
    run_document(alloc, "check", &Check, words, source, sink)
}
