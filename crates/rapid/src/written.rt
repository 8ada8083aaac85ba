// Insertions and their refusals, as they are written.

ghost use Rattle.serde_json.specs.Data.{null};
ghost use Rattle.plan_json.specs.Adds.{AddsNested};
ghost use Rattle.rapid.specs.Written.{placed_data, inserted_data, not_single_data, refusal_data};

use crate::fault::RapidFault;
use crate::inserted::Inserted;
use plan_base::{Claim, GroupNo, ListOf, RequestNo};
use plan_doc::{ClaimDoc, DocFault, InDocument};
use plan_json::{Form, Json, object, word};
use std::alloc::AllocError;

/// Where a request is placed: request, telescope and slice, or `null`.
#[derive(Clone, Copy)]
struct PlacedDoc(Inserted);

fn write_null(out: &mut Vec<u8>) -> Result<(), AllocError>
    ensures { AddsNested result out.old.items out.new.items 1 null }
{
    let nothing: Option<(u8, u8)> = None;
    nothing.write(out)
}

impl Json for PlacedDoc {
    ghost value = { λ doc. placed_data doc.0 };

    ghost levels = { 1 };

    fn write(&self, out: &mut Vec<u8>) -> Result<(), AllocError> {
        match self.0 {
            Inserted::Placed(placement) => InDocument.write_value(&placement, out),
            Inserted::NoPlace => write_null(out),
        }
    }
}

/// What an insertion comes to, as an object: `claim`, the claim after it, `displaced`, the requests that it displaced, and
/// `placed`, where the new one is placed, or `null`.
#[derive(Drop)]
pub(crate) struct InsertedDoc<'a> {
    /// The claim after the insertion.
    pub claim: &'a Claim,
    /// The requests that it displaced, in rising order.
    pub displaced: &'a ListOf<RequestNo>,
    /// Where the new request is placed.
    pub inserted: Inserted,
}

impl<'a> Json for InsertedDoc<'a> {
    ghost value = { λ doc. inserted_data doc.claim.now doc.displaced.now doc.inserted };

    ghost levels = { 4 };

    fn write(&self, out: &mut Vec<u8>) -> Result<(), AllocError> {
        object!(
            "claim": ClaimDoc(self.claim),
            "displaced": self.displaced,
            "placed": PlacedDoc(self.inserted),
        )
        .write(out)
    }
}

fn write_not_single(group: GroupNo, out: &mut Vec<u8>) -> Result<(), AllocError>
    ensures { AddsNested result out.old.items out.new.items 1 (not_single_data group.0) }
{
    object!("group": group.0, "no": 51u8, "refused": word!("NotSingle")).write(out)
}

/// A fault is written as an object: `no`, its number, `refused`, its name, and its fields. Want of memory, which no reply
/// tells, has the number 0.
impl Json for RapidFault {
    ghost value = { refusal_data };

    ghost levels = { 1 };

    fn write(&self, out: &mut Vec<u8>) -> Result<(), AllocError> {
        match *self {
            RapidFault::NotSingle { group } => write_not_single(group, out),
            RapidFault::Snapshot(fault) => DocFault::Snapshot(fault).write(out),
            RapidFault::NoMemory => DocFault::NoMemory.write(out),
        }
    }
}
