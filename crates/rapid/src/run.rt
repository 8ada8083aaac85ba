// Groups inserted into a publication of a document, from its words to its status.

ghost use Rattle.std.specs.Prelude.{◌≡◌, ◌≢◌, ◌↔◌, codes, IfOk, IfErr, OnOk, All, Some};
ghost use Rattle.plan_io.specs.Words.{IsOneWord};
ghost use Rattle.plan_io.specs.Document.{IsDocumentRun, IsDocumentCause};
ghost use Rattle.rapid.specs.declared.fault.RapidFault.TheVariants.{NoMemory};
ghost use Rattle.rapid.specs.Refused.{refusal_of, IsGroupInRanges};
ghost use Rattle.rapid.specs.Run.{IsAnswerTo, IsRapidAnswer};
ghost use Rattle.rapid.specs.Lines.{IsLineOf, AreLinesOf, IsStoppedAt, IsRefusalAdded, IsAnswerFrom};

use crate::document::{RapidDocument, read_bytes};
use crate::fault::RapidFault;
use crate::rapid::{Rapid, RapidAnswer};
use crate::written::InsertedDoc;
use plan_base::{GroupPart, ListOf, Verdict};
use plan_doc::{DocFault, VerdictDoc, answer_line};
use plan_io::{Answer, Answers, Said, Sink, Source, Status, run_document};
use plan_json::add_line;
use std::alloc::{AllocError, Global};

/// Inserts a group, and adds the line of that.
fn insert_one(rapid: &mut Rapid, group: GroupPart, text: &mut Vec<u8>) -> Result<(), RapidFault>
    requires { IsGroupInRanges group }
    ensures ok { OnOk result (IsLineOf rapid.old group rapid.new text.old.items text.new.items) }
    ensures refused { IfErr result (λ fault. fault ≢ NoMemory → refusal_of rapid.old.snapshot group ≡ Some fault) }
    ensures kept { IfErr result (λ fault. fault ≢ NoMemory → text.new.items ≡ text.old.items) }
{
    let inserted = rapid.insert(group)?;
    let line = InsertedDoc {
        claim: rapid.claim(),
        displaced: rapid.displaced_list(),
        inserted,
    };
    add_line(&line, text)?;
    Ok(())
}

/// Inserts groups one after another, and adds the lines of that. Stops at one that is refused.
fn insert_each(
    rapid: &mut Rapid,
    groups: ListOf<GroupPart>,
    text: &mut Vec<u8>,
) -> Result<(), RapidFault>
    requires { All IsGroupInRanges groups }
    ensures ok { OnOk result (AreLinesOf rapid.old groups rapid.new text.old.items text.new.items) }
    ensures fault { IfErr result (λ fault. fault ≢ NoMemory → IsStoppedAt rapid.old groups fault text.old.items text.new.items) }
{
    for group in groups.into_vec() {
        if let Err(fault) = insert_one(rapid, group, text) {
            return Err(fault);
        }
    }
    Ok(())
}

/// Adds the line of a refusal, which ends the answer.
fn with_line(mut text: Vec<u8>, fault: RapidFault) -> Result<Answer, AllocError>
    requires { fault ≢ NoMemory }
    ensures { IfOk result (IsRefusalAdded text.items fault) }
{
    add_line(&fault, &mut text)?;
    Ok(Answer {
        text,
        said: Said::NoDocument,
    })
}

/// The same, where it isn't want of memory.
fn with_refusal(text: Vec<u8>, fault: RapidFault) -> Result<Answer, AllocError>
    ensures { IfOk result (IsRefusalAdded text.items fault) }
{
    match fault {
        RapidFault::NoMemory => Err(AllocError),
        RapidFault::NotSingle { .. } | RapidFault::Snapshot(_) => with_line(text, fault),
    }
}

/// What is written where groups are inserted.
fn answer_from(
    alloc: Global,
    rapid: &mut Rapid,
    groups: ListOf<GroupPart>,
) -> Result<Answer, AllocError>
    requires { All IsGroupInRanges groups }
    ensures { IfOk result (λ a. IsAnswerFrom rapid.old groups a.text.items a.said) }
{
    let mut text = Vec::new(alloc);
    match insert_each(rapid, groups, &mut text) {
        Ok(()) => Ok(Answer {
            text,
            said: Said::Yes,
        }),
        Err(fault) => with_refusal(text, fault),
    }
}

/// What is written of a document.
fn answer_to(alloc: Global, document: RapidDocument) -> Result<Answer, AllocError>
    requires { All IsGroupInRanges document.groups }
    ensures { IfOk result (λ a. IsAnswerTo document a.text.items a.said) }
{
    let RapidDocument {
        publication,
        groups,
    } = document;
    let (snapshot, claim) = publication.into_parts();
    match Rapid::new(alloc, &snapshot, claim)? {
        RapidAnswer::Ready(mut rapid) => answer_from(alloc, &mut rapid, groups),
        RapidAnswer::No(reason) => answer_line(alloc, &VerdictDoc(Verdict::No(reason)), Said::No),
    }
}

/// Inserts.
struct Insert;

impl Answers for Insert {
    ghost is_answer = { IsRapidAnswer };

    fn answer(&self, alloc: Global, input: &[u8]) -> Result<Answer, AllocError> {
        match read_bytes(alloc, input) {
            Ok(document) => answer_to(alloc, document),
            Err(DocFault::NoMemory) => Err(AllocError),
            Err(fault) => answer_line(alloc, &fault, Said::NoDocument),
        }
    }
}

/// Inserts groups into a publication. The word is `rapid`; statuses, reading and writing are those of [`run_document`].
/// What was read is one document with the members `snapshot`, `claim` and `groups`, read in this order: the first two as
/// [`read_publication`] reads them, the last a list of 1 to 64 groups as [`read_groups`] reads them. Where the claim isn't
/// certified, the reason is written, at status `No`. Else the groups are inserted one after another, and each insertion
/// writes a line, at status `Done`: the claim after it, the requests that it displaced, and where the new one is placed. A
/// group that is refused ends that: its fault is written after the lines before it, at status `NoDocument`, as the
/// document's first fault is.
///
/// [`read_groups`]: plan_doc::read_groups
/// [`read_publication`]: plan_doc::read_publication
/// [`run_document`]: plan_io::run_document
pub fn run_rapid<S: Source, K: Sink>(
    alloc: Global,
    words: &[String],
    source: &mut S,
    sink: &mut K,
) -> Status
    ensures words { (result ≡ Status.Words) ↔ ¬ (IsOneWord (codes "rapid") words.now) }
    ensures untouched { result ≡ Status.Words → (source.new ≡ source.old) × (sink.new ≡ sink.old) }
    ensures unread { result ≡ Status.ReadFault → sink.new ≡ sink.old }
    ensures over { result ≡ Status.InputOver → sink.new ≡ sink.old }
    ensures unwritten { result ≡ Status.NoMemory → sink.new ≡ sink.old }
    ensures rapid { IsDocumentRun IsRapidAnswer
        (S.left source.old) (S.left source.new) (K.written sink.old) (K.written sink.new) result }
    ensures cause { IsDocumentCause
        (S.faults source.old) (S.faults source.new) (K.faults sink.old) (K.faults sink.new) result }
{
    run_document(alloc, "rapid", &Insert, words, source, sink)
}
