// Faults of documents, as they are written.

ghost use Rattle.std.specs.Prelude.{◌≡◌};
ghost use Rattle.serde_json.specs.Data.{string};
ghost use Rattle.plan_json.specs.Adds.{AddsNested};
ghost use Rattle.plan_doc.specs.Refusal.{number_of_json, number_of_parts, number_of_fault, name_of_json, name_of_parts};
ghost use Rattle.plan_doc.specs.Refusal.{name_of_fault, name_of_counted, of_group, of_request};
ghost use Rattle.plan_doc.specs.Refusal.{fields_of_json, fields_of_parts, fields_of_fault, fault_at, fault_data};

use crate::fault::DocFault;
use plan_base::{Counted, GroupNo, RequestNo, SnapshotFault};
use plan_json::{Json, JsonFault, Member, object};
use std::alloc::AllocError;

/// What is counted, which is written as its name.
#[derive(Clone, Copy)]
struct CountedWord(Counted);

impl Json for CountedWord {
    ghost value = { λ word. string (name_of_counted word.0) };

    ghost levels = { 0 };

    fn write(&self, out: &mut Vec<u8>) -> Result<(), AllocError> {
        counted_name(self.0).write(out)
    }
}

/// The fields that a fault has beside its name, each where it has it.
#[derive(Clone, Copy)]
struct FaultFields {
    count: Option<u64>,
    group: Option<u32>,
    index: Option<u32>,
    member: Option<Member>,
    request: Option<u32>,
    telescope: Option<u16>,
    what: Option<CountedWord>,
}

const NO_FIELDS: FaultFields = FaultFields {
    count: None,
    group: None,
    index: None,
    member: None,
    request: None,
    telescope: None,
    what: None,
};

fn json_number(fault: JsonFault) -> u8
    ensures { result ≡ number_of_json fault }
{
    match fault {
        JsonFault::NotJson => 1,
        JsonFault::NotObject => 2,
        JsonFault::Missing { .. } => 3,
        JsonFault::WrongKind { .. } => 4,
        JsonFault::NotWhole { .. } => 5,
        JsonFault::OutOfRange { .. } => 6,
        JsonFault::BadMoment { .. } => 7,
        JsonFault::NoMemory => 0,
    }
}

fn parts_number(fault: SnapshotFault) -> u8
    ensures { result ≡ number_of_parts fault }
{
    match fault {
        SnapshotFault::OverLimit { .. } => 41,
        SnapshotFault::EmptySpan => 42,
        SnapshotFault::NotApart => 43,
        SnapshotFault::GroupOrder(_) => 44,
        SnapshotFault::RequestOrder(_) => 45,
        SnapshotFault::BadShape(_) => 46,
        SnapshotFault::NoSuchTelescope(_) => 47,
        SnapshotFault::FadeRange(_) => 48,
        SnapshotFault::NoSuchQuota(_) => 49,
        SnapshotFault::QuotaRange { .. } => 50,
        SnapshotFault::NoMemory => 0,
    }
}

fn number(fault: DocFault) -> u8
    ensures { result ≡ number_of_fault fault }
{
    match fault {
        DocFault::Json(fault) => json_number(fault),
        DocFault::Snapshot(fault) => parts_number(fault),
        DocFault::NoMemory => 0,
    }
}

fn json_name(fault: JsonFault) -> &'static str
    ensures { result.now ≡ name_of_json fault }
{
    match fault {
        JsonFault::NotJson => "NotJson",
        JsonFault::NotObject => "NotObject",
        JsonFault::Missing { .. } => "Missing",
        JsonFault::WrongKind { .. } => "WrongKind",
        JsonFault::NotWhole { .. } => "NotWhole",
        JsonFault::OutOfRange { .. } => "OutOfRange",
        JsonFault::BadMoment { .. } => "BadMoment",
        JsonFault::NoMemory => "NoMemory",
    }
}

fn parts_name(fault: SnapshotFault) -> &'static str
    ensures { result.now ≡ name_of_parts fault }
{
    match fault {
        SnapshotFault::OverLimit { .. } => "OverLimit",
        SnapshotFault::EmptySpan => "EmptySpan",
        SnapshotFault::NotApart => "NotApart",
        SnapshotFault::GroupOrder(_) => "GroupOrder",
        SnapshotFault::RequestOrder(_) => "RequestOrder",
        SnapshotFault::BadShape(_) => "BadShape",
        SnapshotFault::NoSuchTelescope(_) => "NoSuchTelescope",
        SnapshotFault::FadeRange(_) => "FadeRange",
        SnapshotFault::NoSuchQuota(_) => "NoSuchQuota",
        SnapshotFault::QuotaRange { .. } => "QuotaRange",
        SnapshotFault::NoMemory => "NoMemory",
    }
}

fn name(fault: DocFault) -> &'static str
    ensures { result.now ≡ name_of_fault fault }
{
    match fault {
        DocFault::Json(fault) => json_name(fault),
        DocFault::Snapshot(fault) => parts_name(fault),
        DocFault::NoMemory => "NoMemory",
    }
}

fn json_fields(fault: JsonFault) -> FaultFields
    ensures { result ≡ fields_of_json fault }
{
    match fault {
        JsonFault::Missing { member }
        | JsonFault::WrongKind { member }
        | JsonFault::NotWhole { member }
        | JsonFault::OutOfRange { member }
        | JsonFault::BadMoment { member } => FaultFields {
            member: Some(member),
            ..NO_FIELDS
        },
        JsonFault::NotJson | JsonFault::NotObject | JsonFault::NoMemory => NO_FIELDS,
    }
}

fn of_group(group: GroupNo) -> FaultFields
    ensures { result ≡ of_group group.0 }
{
    FaultFields {
        group: Some(group.0),
        ..NO_FIELDS
    }
}

fn of_request(request: RequestNo) -> FaultFields
    ensures { result ≡ of_request request.0 }
{
    FaultFields {
        request: Some(request.0),
        ..NO_FIELDS
    }
}

fn parts_fields(fault: SnapshotFault) -> FaultFields
    ensures { result ≡ fields_of_parts fault }
{
    match fault {
        SnapshotFault::OverLimit { what, count } => FaultFields {
            what: Some(CountedWord(what)),
            count: Some(count),
            ..NO_FIELDS
        },
        SnapshotFault::GroupOrder(group)
        | SnapshotFault::BadShape(group)
        | SnapshotFault::NoSuchQuota(group) => of_group(group),
        SnapshotFault::RequestOrder(request) | SnapshotFault::FadeRange(request) => {
            of_request(request)
        }
        SnapshotFault::NoSuchTelescope(telescope) => FaultFields {
            telescope: Some(telescope.0),
            ..NO_FIELDS
        },
        SnapshotFault::QuotaRange { index } => FaultFields {
            index: Some(index),
            ..NO_FIELDS
        },
        SnapshotFault::EmptySpan | SnapshotFault::NotApart | SnapshotFault::NoMemory => NO_FIELDS,
    }
}

fn fields(fault: DocFault) -> FaultFields
    ensures { result ≡ fields_of_fault fault }
{
    match fault {
        DocFault::Json(fault) => json_fields(fault),
        DocFault::Snapshot(fault) => parts_fields(fault),
        DocFault::NoMemory => NO_FIELDS,
    }
}

fn counted_name(what: Counted) -> &'static str
    ensures { result.now ≡ name_of_counted what }
{
    match what {
        Counted::Telescopes => "telescopes",
        Counted::Usable => "usable",
        Counted::Skies => "skies",
        Counted::Spans => "spans",
        Counted::Groups => "groups",
        Counted::Requests => "requests",
        Counted::Windows => "windows",
        Counted::Targets => "targets",
        Counted::Fits => "fits",
        Counted::Quotas => "quotas",
    }
}

/// Adds an object with a fault's number, name and fields.
fn write_fault(
    number: u8,
    name: &str,
    fields: &FaultFields,
    out: &mut Vec<u8>,
) -> Result<(), AllocError>
    ensures { AddsNested result out.old.items out.new.items 1 (fault_at number name.now fields.now) }
{
    object!(
        "count"?: &fields.count,
        "group"?: &fields.group,
        "index"?: &fields.index,
        "member"?: &fields.member,
        "no": number,
        "refused": name,
        "request"?: &fields.request,
        "telescope"?: &fields.telescope,
        "what"?: &fields.what,
    )
    .write(out)
}

/// A fault is written as an object: `no`, its number, `refused`, its name, and its fields. Want of memory, which no
/// reply tells, has the number 0.
impl Json for DocFault {
    ghost value = { fault_data };

    ghost levels = { 1 };

    fn write(&self, out: &mut Vec<u8>) -> Result<(), AllocError> {
        let fields = fields(*self);
        write_fault(number(*self), name(*self), &fields, out)
    }
}
