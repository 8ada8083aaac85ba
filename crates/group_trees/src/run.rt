// The check of a claim with trees in a document, from its words to its status.

ghost use Rattle.std.specs.Prelude.{◌≡◌, ◌≢◌, ◌↔◌, codes, IfOk, IfErr, Ok, Err};
ghost use Rattle.plan_json.specs.Object.{document_of};
ghost use Rattle.plan_json.specs.Shown.{members_of};
ghost use Rattle.plan_io.specs.Words.{IsOneWord};
ghost use Rattle.plan_io.specs.Document.{IsDocumentRun, IsDocumentCause};
ghost use Rattle.plan_doc.specs.declared.fault.DocFault.TheVariants as document;
ghost use Rattle.group_trees.specs.declared.asked.AskFault.TheVariants as asked;
ghost use Rattle.group_trees.specs.Trees.{trees_seen};
ghost use Rattle.group_trees.specs.Built.{snapshot_of, trees_of};
ghost use Rattle.group_trees.specs.Documents.{opening_of, claim_given, IsForestJudged, IsForestRefused, IsForestAnswer, said_of};

use crate::asked::AskFault;
use crate::check::check_forest;
use crate::forest::Forest;
use crate::read::read_trees;
use crate::text::ForestVerdictDoc;
use crate::tree::Tree;
use crate::verdict::ForestVerdict;
use plan_base::{Claim, Snapshot};
use plan_doc::{DocFault, answer_line, read_claim, read_snapshot};
use plan_io::{Answer, Answers, Said, Sink, Source, Status, run_document};
use plan_json::{Doc, Member, parse_object};
use std::alloc::{AllocError, Global};

/// What a document opens with.
#[derive(Drop)]
struct Opening {
    snapshot: Snapshot,
    trees: Vec<Tree>,
}

/// The snapshot and the trees of a document.
fn read_opening(alloc: Global, doc: &Doc) -> Result<Opening, DocFault>
    ensures value { IfOk result (λ o. opening_of (members_of doc.now) ≡ Ok (o.snapshot, trees_seen o.trees.items)) }
    ensures fault { IfErr result (λ e. e ≢ document.NoMemory → opening_of (members_of doc.now) ≡ Err e) }
{
    let snapshot = read_snapshot(alloc, &doc.object(Member::Snapshot)?)?;
    let trees = read_trees(alloc, doc)?;
    Ok(Opening { snapshot, trees })
}

/// The claim of a document.
fn read_end(alloc: Global, doc: &Doc) -> Result<Claim, DocFault>
    ensures value { IfOk result (λ claim. claim_given (members_of doc.now) ≡ Ok claim) }
    ensures fault { IfErr result (λ e. e ≢ document.NoMemory → claim_given (members_of doc.now) ≡ Err e) }
{
    Ok(read_claim(alloc, &doc.object(Member::Claim)?)?)
}

/// The verdict on the claim of a document that opens so.
fn judge_opened(alloc: Global, doc: &Doc, opening: Opening) -> Result<ForestVerdict, AskFault>
    requires { opening_of (members_of doc.now) ≡ Ok (opening.snapshot, trees_seen opening.trees.items) }
    ensures verdict { IfOk result (λ verdict. (bytes : _) → document_of bytes ≡ Ok (members_of doc.now) → IsForestJudged bytes verdict) }
    ensures fault { IfErr result (λ e. e ≢ asked.NoMemory → (bytes : _) → document_of bytes ≡ Ok (members_of doc.now) → IsForestRefused bytes e) }
{
    let Opening { snapshot, trees } = opening;
    match Forest::build(alloc, &snapshot, trees) {
        Ok(forest) => judge_forest(alloc, doc, &snapshot, &forest),
        Err(fault) => Err(AskFault::from(fault)),
    }
}

/// The verdict on the claim of a document that opens with this forest.
fn judge_forest(
    alloc: Global,
    doc: &Doc,
    snapshot: &Snapshot,
    forest: &Forest<'_>,
) -> Result<ForestVerdict, AskFault>
    requires snapshot { snapshot_of forest.now ≡ snapshot.now }
    requires opening { opening_of (members_of doc.now) ≡ Ok (snapshot.now, trees_of forest.now) }
    ensures verdict { IfOk result (λ verdict. (bytes : _) → document_of bytes ≡ Ok (members_of doc.now) → IsForestJudged bytes verdict) }
    ensures fault { IfErr result (λ e. e ≢ asked.NoMemory → (bytes : _) → document_of bytes ≡ Ok (members_of doc.now) → IsForestRefused bytes e) }
{
    forest.recall_sound();
    let claim = read_end(alloc, doc)?;
    Ok(check_forest(alloc, snapshot, forest, &claim)?)
}

/// The verdict on the claim that the bytes have.
fn judge_bytes(alloc: Global, bytes: &[u8]) -> Result<ForestVerdict, AskFault>
    ensures verdict { IfOk result (IsForestJudged bytes.now) }
    ensures fault { IfErr result (λ e. e ≢ asked.NoMemory → IsForestRefused bytes.now e) }
{
    let doc = parse_object(alloc, bytes)?;
    let opening = read_opening(alloc, &doc)?;
    judge_opened(alloc, &doc, opening)
}

/// What the verdict says of a document.
fn said_of(verdict: ForestVerdict) -> Said
    ensures { result ≡ said_of verdict }
{
    match verdict {
        ForestVerdict::Yes { .. } => Said::Yes,
        ForestVerdict::No(_) => Said::No,
    }
}

/// Checks with trees.
struct CheckTrees;

impl Answers for CheckTrees {
    ghost is_answer = { IsForestAnswer };

    fn answer(&self, alloc: Global, input: &[u8]) -> Result<Answer, AllocError> {
        match judge_bytes(alloc, input) {
            Ok(verdict) => answer_line(alloc, &ForestVerdictDoc(verdict), said_of(verdict)),
            Err(AskFault::NoMemory) => Err(AllocError),
            Err(AskFault::Document(fault)) => answer_line(alloc, &fault, Said::NoDocument),
            Err(AskFault::Forest(fault)) => answer_line(alloc, &fault, Said::NoDocument),
        }
    }
}

/// Checks a claim with trees. The word is `forest`; statuses, reading and writing are those of [`run_document`]. What was
/// read is one document, an object with the members `snapshot`, as [`read_snapshot`] reads it, `trees`, and `claim`, as
/// [`read_claim`] reads it, read in this order. `trees` is a list of 0 to 1,024 nodes. A node is an object: where `leaf` is
/// there, it is the request of that number, 0 to 4,294,967,295; else `operator` is `MANY`, `ONEOF` or `AND`, and `children`
/// is a list of 0 to 32 nodes. A fault of [`Forest::build`] stands after those of `trees` and before those of `claim`.
///
/// One line is written: the verdict, at status `Done` where it is Yes and at `No` where it is No, or the document's first
/// fault, at status `NoDocument`.
///
/// [`run_document`]: plan_io::run_document
/// [`read_snapshot`]: plan_doc::read_snapshot
/// [`read_claim`]: plan_doc::read_claim
pub fn run_forest<S: Source, K: Sink>(
    alloc: Global,
    words: &[String],
    source: &mut S,
    sink: &mut K,
) -> Status
    ensures words { (result ≡ Status.Words) ↔ ¬ (IsOneWord (codes "forest") words.now) }
    ensures untouched { result ≡ Status.Words → (source.new ≡ source.old) × (sink.new ≡ sink.old) }
    ensures unread { result ≡ Status.ReadFault → sink.new ≡ sink.old }
    ensures over { result ≡ Status.InputOver → sink.new ≡ sink.old }
    ensures unwritten { result ≡ Status.NoMemory → sink.new ≡ sink.old }
    ensures forest { IsDocumentRun IsForestAnswer
        (S.left source.old) (S.left source.new) (K.written sink.old) (K.written sink.new) result }
    ensures cause { IsDocumentCause
        (S.faults source.old) (S.faults source.new) (K.faults sink.old) (K.faults sink.new) result }
{
    run_document(alloc, "forest", &CheckTrees, words, source, sink)
}
