// Verdicts, as they are written.

ghost use Rattle.plan_json.specs.Adds.{AddsNested};
ghost use Rattle.plan_doc.specs.Reason.{yes_data, reason_data};
ghost use Rattle.group_trees.specs.Texts.{not_allowed_data, forest_reason_data, forest_verdict_data};

use crate::verdict::{ForestReason, ForestVerdict};
use plan_base::{Reason, Verdict};
use plan_doc::VerdictDoc;
use plan_json::{Json, object, word};
use std::alloc::AllocError;

/// A verdict as an object: `{"bound":B,"ok":"yes","value":V}`, or `no`, the reason's number, `reason`, its name, and its
/// fields. Reasons that a check without trees gives too are written as there.
#[derive(Clone, Copy)]
pub(crate) struct ForestVerdictDoc(pub ForestVerdict);

fn write_yes(value: u64, bound: u64, out: &mut Vec<u8>) -> Result<(), AllocError>
    ensures { AddsNested result out.old.items out.new.items 1 (yes_data value bound) }
{
    VerdictDoc(Verdict::Yes { value, bound }).write(out)
}

fn write_not_allowed(tree: u64, out: &mut Vec<u8>) -> Result<(), AllocError>
    ensures { AddsNested result out.old.items out.new.items 1 (not_allowed_data tree) }
{
    object!("no": 14u8, "reason": word!("NotAllowed"), "tree": tree).write(out)
}

fn write_checked(reason: Reason, out: &mut Vec<u8>) -> Result<(), AllocError>
    ensures { AddsNested result out.old.items out.new.items 1 (reason_data reason) }
{
    VerdictDoc(Verdict::No(reason)).write(out)
}

fn write_reason(reason: ForestReason, out: &mut Vec<u8>) -> Result<(), AllocError>
    ensures { AddsNested result out.old.items out.new.items 1 (forest_reason_data reason) }
{
    match reason {
        ForestReason::NotAllowed { tree } => write_not_allowed(tree as u64, out),
        ForestReason::UnknownRequest { index } => write_checked(
            Reason::UnknownRequest { index },
            out,
        ),
        ForestReason::PlacedTwice { index } => write_checked(Reason::PlacedTwice { index }, out),
        ForestReason::NotPossible { index } => write_checked(Reason::NotPossible { index }, out),
        ForestReason::Overlap { index } => write_checked(Reason::Overlap { index }, out),
        ForestReason::PriceCount { given, wanted } => write_checked(
            Reason::PriceCount { given, wanted },
            out,
        ),
        ForestReason::PriceRange { index } => write_checked(Reason::PriceRange { index }, out),
        ForestReason::QuotaPriceCount { given, wanted } => write_checked(
            Reason::QuotaPriceCount { given, wanted },
            out,
        ),
        ForestReason::ValueDiffers { claimed, found } => write_checked(
            Reason::ValueDiffers { claimed, found },
            out,
        ),
        ForestReason::BoundDiffers { claimed, found } => write_checked(
            Reason::BoundDiffers { claimed, found },
            out,
        ),
    }
}

impl Json for ForestVerdictDoc {
    ghost value = { λ doc. forest_verdict_data doc.0 };

    ghost levels = { 1 };

    fn write(&self, out: &mut Vec<u8>) -> Result<(), AllocError> {
        match self.0 {
            ForestVerdict::Yes { value, bound } => write_yes(value, bound, out),
            ForestVerdict::No(reason) => write_reason(reason, out),
        }
    }
}
