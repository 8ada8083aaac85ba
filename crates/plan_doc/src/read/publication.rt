// Snapshots with a claim on them.

ghost use Rattle.std.specs.Prelude.{◌≡◌, ◌≢◌, IfOk, IfErr, Ok, Err};
ghost use Rattle.plan_json.specs.Shown.{members_of};
ghost use Rattle.plan_doc.specs.declared.fault.DocFault.TheVariants.{NoMemory};
ghost use Rattle.plan_doc.specs.Publication.{publication_of, publication_of_bytes};

use crate::fault::DocFault;
use crate::publication::Publication;
use crate::read::claim::read_claim;
use crate::read::snapshot::read_snapshot;
use plan_json::{Doc, Member, parse_object};
use std::alloc::Global;

/// The publication that the document is, or its first fault: `snapshot`, an object that [`read_snapshot`] reads, and
/// then `claim`, an object that [`read_claim`] reads. Other members aren't looked at.
pub fn read_publication(alloc: Global, doc: &Doc) -> Result<Publication, DocFault>
    ensures value { IfOk result (λ p. publication_of (members_of doc.now) ≡ Ok p) }
    ensures fault { IfErr result (λ e. e ≢ NoMemory → publication_of (members_of doc.now) ≡ Err e) }
{
    let snapshot = read_snapshot(alloc, &doc.object(Member::Snapshot)?)?;
    let claim = read_claim(alloc, &doc.object(Member::Claim)?)?;
    Ok(Publication { snapshot, claim })
}

/// The publication that the bytes are: one JSON text, an object that [`read_publication`] reads; or its first fault.
pub fn read_publication_bytes(alloc: Global, bytes: &[u8]) -> Result<Publication, DocFault>
    ensures value { IfOk result (λ p. publication_of_bytes bytes.now ≡ Ok p) }
    ensures fault { IfErr result (λ e. e ≢ NoMemory → publication_of_bytes bytes.now ≡ Err e) }
{
    read_publication(alloc, &parse_object(alloc, bytes)?)
}
