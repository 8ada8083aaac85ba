// The entries that reject a claim, with the fields of the reason.
#![tactic(auto, unfolding(crate::specs::Entry::data_with))]

ghost use Rattle.desk_events.specs.Entry.{AddsEntry};
ghost use Rattle.desk_events.specs.Refused.{rejected, members_of_refusal};
ghost use Rattle.plan_doc.specs.Reason.{members_of_fields};
ghost use Rattle.desk_events.specs.declared.refusal.Refusal.TheVariants as refusal;

use crate::entry::EventEntry;
use plan_base::Reason;
use plan_doc::{ReasonFields, reason_fields, reason_name};
use plan_json::{object, word, write_json};
use std::alloc::AllocError;

/// A reason by its name and fields.
fn write_fields(
    entry: &EventEntry,
    name: &str,
    fields: &ReasonFields,
    out: &mut Vec<u8>,
) -> Result<(), AllocError>
    ensures { AddsEntry result out.old.items out.new.items entry.now
        (rejected name.now (members_of_fields fields.now)) }
{
    let object = object!(
        "caller": entry.caller,
        "claimed"?: &fields.claimed,
        "found"?: &fields.found,
        "given"?: &fields.given,
        "group"?: &fields.group,
        "index"?: &fields.index,
        "line": entry.line,
        "most"?: &fields.most,
        "no": 32u8,
        "quota"?: &fields.quota,
        "reason": name,
        "refused": word!("Rejected"),
        "seconds"?: &fields.seconds,
        "version": entry.version,
        "wanted"?: &fields.wanted,
    );
    write_json(&object, out)
}

/// Adds the object of an entry that rejects a claim.
pub(crate) fn write_rejected(
    entry: &EventEntry,
    reason: Reason,
    out: &mut Vec<u8>,
) -> Result<(), AllocError>
    ensures { AddsEntry result out.old.items out.new.items entry.now
        (members_of_refusal (refusal.Rejected reason)) }
{
    let fields = reason_fields(reason);
    write_fields(entry, reason_name(reason), &fields, out)
}
