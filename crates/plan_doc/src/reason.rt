// Reasons and verdicts, as they are written.

ghost use Rattle.std.specs.Prelude.{◌≡◌};
ghost use Rattle.plan_json.specs.Adds.{AddsNested};
ghost use Rattle.plan_doc.specs.Reason.{number_of_reason, name_of_reason, at_index};
ghost use Rattle.plan_doc.specs.Reason.{of_group, of_counts, of_difference, fields_of_reason, reason_at, reason_data, yes_data, verdict_data};

use plan_base::{GroupNo, Reason, Verdict};
use plan_json::{Json, object, word};
use std::alloc::AllocError;

/// The fields that a reason has beside its name, each where it has it; an object that says the reason has them as
/// members.
#[derive(Clone, Copy)]
pub struct ReasonFields {
    /// The value or the bound that is claimed.
    pub claimed: Option<u64>,
    /// The value or the bound that was worked out.
    pub found: Option<u64>,
    /// How many prices are given.
    pub given: Option<u64>,
    /// The number of a group.
    pub group: Option<u32>,
    /// A place in the list of placements or of prices, from 0.
    pub index: Option<u32>,
    /// The most seconds that a quota allows.
    pub most: Option<u64>,
    /// The place of a quota in the snapshot's list, from 0.
    pub quota: Option<u32>,
    /// The seconds that the plan takes of it.
    pub seconds: Option<u64>,
    /// How many prices there should be.
    pub wanted: Option<u64>,
}

const NO_FIELDS: ReasonFields = ReasonFields {
    claimed: None,
    found: None,
    given: None,
    group: None,
    index: None,
    most: None,
    quota: None,
    seconds: None,
    wanted: None,
};

/// The number of the reason, from 1.
pub(crate) fn reason_number(reason: Reason) -> u8
    ensures { result ≡ number_of_reason reason }
{
    match reason {
        Reason::UnknownRequest { .. } => 1,
        Reason::PlacedTwice { .. } => 2,
        Reason::NotPossible { .. } => 3,
        Reason::Overlap { .. } => 4,
        Reason::OneofTwice { .. } => 5,
        Reason::AndPartial { .. } => 6,
        Reason::PriceCount { .. } => 7,
        Reason::PriceRange { .. } => 8,
        Reason::ValueDiffers { .. } => 9,
        Reason::BoundDiffers { .. } => 10,
        Reason::QuotaOver { .. } => 11,
        Reason::QuotaPriceCount { .. } => 12,
        Reason::QuotaPriceRange { .. } => 13,
    }
}

/// The name of the reason.
pub fn reason_name(reason: Reason) -> &'static str
    ensures { result.now ≡ name_of_reason reason }
{
    match reason {
        Reason::UnknownRequest { .. } => "UnknownRequest",
        Reason::PlacedTwice { .. } => "PlacedTwice",
        Reason::NotPossible { .. } => "NotPossible",
        Reason::Overlap { .. } => "Overlap",
        Reason::OneofTwice { .. } => "OneofTwice",
        Reason::AndPartial { .. } => "AndPartial",
        Reason::PriceCount { .. } => "PriceCount",
        Reason::PriceRange { .. } => "PriceRange",
        Reason::ValueDiffers { .. } => "ValueDiffers",
        Reason::BoundDiffers { .. } => "BoundDiffers",
        Reason::QuotaOver { .. } => "QuotaOver",
        Reason::QuotaPriceCount { .. } => "QuotaPriceCount",
        Reason::QuotaPriceRange { .. } => "QuotaPriceRange",
    }
}

fn at_index(index: u32) -> ReasonFields
    ensures { result ≡ at_index index }
{
    ReasonFields {
        index: Some(index),
        ..NO_FIELDS
    }
}

fn of_group(group: GroupNo) -> ReasonFields
    ensures { result ≡ of_group group.0 }
{
    ReasonFields {
        group: Some(group.0),
        ..NO_FIELDS
    }
}

fn of_counts(given: u64, wanted: u64) -> ReasonFields
    ensures { result ≡ of_counts given wanted }
{
    ReasonFields {
        given: Some(given),
        wanted: Some(wanted),
        ..NO_FIELDS
    }
}

fn of_difference(claimed: u64, found: u64) -> ReasonFields
    ensures { result ≡ of_difference claimed found }
{
    ReasonFields {
        claimed: Some(claimed),
        found: Some(found),
        ..NO_FIELDS
    }
}

/// The fields that the reason has.
pub fn reason_fields(reason: Reason) -> ReasonFields
    ensures { result ≡ fields_of_reason reason }
{
    match reason {
        Reason::UnknownRequest { index }
        | Reason::PlacedTwice { index }
        | Reason::NotPossible { index }
        | Reason::Overlap { index }
        | Reason::PriceRange { index }
        | Reason::QuotaPriceRange { index } => at_index(index),
        Reason::OneofTwice { group } | Reason::AndPartial { group } => of_group(group),
        Reason::PriceCount { given, wanted } | Reason::QuotaPriceCount { given, wanted } => {
            of_counts(given, wanted)
        }
        Reason::ValueDiffers { claimed, found } | Reason::BoundDiffers { claimed, found } => {
            of_difference(claimed, found)
        }
        Reason::QuotaOver {
            quota,
            seconds,
            most,
        } => ReasonFields {
            quota: Some(quota),
            seconds: Some(seconds),
            most: Some(most),
            ..NO_FIELDS
        },
    }
}

/// Adds an object with a reason's number, name and fields.
fn write_reason(
    number: u8,
    name: &str,
    fields: &ReasonFields,
    out: &mut Vec<u8>,
) -> Result<(), AllocError>
    ensures { AddsNested result out.old.items out.new.items 1 (reason_at number name.now fields.now) }
{
    object!(
        "claimed"?: &fields.claimed,
        "found"?: &fields.found,
        "given"?: &fields.given,
        "group"?: &fields.group,
        "index"?: &fields.index,
        "most"?: &fields.most,
        "no": number,
        "quota"?: &fields.quota,
        "reason": name,
        "seconds"?: &fields.seconds,
        "wanted"?: &fields.wanted,
    )
    .write(out)
}

/// A verdict as an object: `{"bound":B,"ok":"yes","value":V}`, or `no`, the reason's number, `reason`, its name, and
/// its fields.
#[derive(Clone, Copy)]
pub struct VerdictDoc(pub Verdict);

fn write_yes(value: u64, bound: u64, out: &mut Vec<u8>) -> Result<(), AllocError>
    ensures { AddsNested result out.old.items out.new.items 1 (yes_data value bound) }
{
    object!("bound": bound, "ok": word!("yes"), "value": value).write(out)
}

fn write_no(reason: Reason, out: &mut Vec<u8>) -> Result<(), AllocError>
    ensures { AddsNested result out.old.items out.new.items 1 (reason_data reason) }
{
    let fields = reason_fields(reason);
    write_reason(reason_number(reason), reason_name(reason), &fields, out)
}

impl Json for VerdictDoc {
    ghost value = { λ doc. verdict_data doc.0 };

    ghost levels = { 1 };

    fn write(&self, out: &mut Vec<u8>) -> Result<(), AllocError> {
        match self.0 {
            Verdict::Yes { value, bound } => write_yes(value, bound, out),
            Verdict::No(reason) => write_no(reason, out),
        }
    }
}
