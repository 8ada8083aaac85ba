// Publications with groups to insert, as documents.

ghost use Rattle.std.specs.Prelude.{◌≡◌, ◌≢◌, IfOk, IfErr, Ok, Err, All};
ghost use Rattle.plan_json.specs.Shown.{members_of};
ghost use Rattle.plan_doc.specs.declared.fault.DocFault.TheVariants.{NoMemory};
ghost use Rattle.rapid.specs.Document.{rapid_document_of, rapid_document_of_bytes};
ghost use Rattle.rapid.specs.Refused.{IsGroupInRanges};

use plan_base::{GroupPart, ListOf};
use plan_doc::{DocFault, Publication, read_groups, read_publication};
use plan_json::{Doc, parse_object};
use std::alloc::Global;

/// The fewest groups that a document has to insert.
const LEAST_GROUPS: u32 = 1;

/// The most groups that a document has to insert.
const MOST_GROUPS: u32 = 64;

/// A snapshot with a claim on it, and groups to insert.
#[derive(Drop)]
pub(crate) struct RapidDocument {
    /// The snapshot with the claim.
    pub publication: Publication,
    /// The groups, 1 to 64, inserted in this order.
    pub groups: ListOf<GroupPart>,
}

/// The document that the object is, or its first fault.
fn read_document(alloc: Global, doc: &Doc) -> Result<RapidDocument, DocFault>
    ensures value { IfOk result (λ d. rapid_document_of (members_of doc.now) ≡ Ok d) }
    ensures fault { IfErr result (λ e. e ≢ NoMemory → rapid_document_of (members_of doc.now) ≡ Err e) }
    ensures ranges { IfOk result (λ d. All IsGroupInRanges d.groups) }
{
    let publication = read_publication(alloc, doc)?;
    let groups = read_groups(alloc, doc, LEAST_GROUPS, MOST_GROUPS)?;
    Ok(RapidDocument {
        publication,
        groups,
    })
}

/// The document that the bytes are, or its first fault.
pub(crate) fn read_bytes(alloc: Global, bytes: &[u8]) -> Result<RapidDocument, DocFault>
    ensures value { IfOk result (λ d. rapid_document_of_bytes bytes.now ≡ Ok d) }
    ensures fault { IfErr result (λ e. e ≢ NoMemory → rapid_document_of_bytes bytes.now ≡ Err e) }
    ensures ranges { IfOk result (λ d. All IsGroupInRanges d.groups) }
{
    read_document(alloc, &parse_object(alloc, bytes)?)
}
