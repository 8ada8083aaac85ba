// Request groups, as they are written.

ghost use Rattle.std.specs.Prelude.{◌≡◌, IfOk, Ok};
ghost use Rattle.serde_json.specs.Data.{string};
ghost use Rattle.request_model.specs.Ranges.{IsGroup};
ghost use Rattle.request_model.specs.Written.{kind_name, group_data, text_of_group, group_of_bytes};

use crate::group::{GroupDoc, ObsKind};
use plan_json::{Json, json_text, object};
use std::alloc::{AllocError, Global};

fn kind_name(kind: ObsKind) -> &'static str
    ensures { result.now ≡ kind_name kind }
{
    match kind {
        ObsKind::Normal => "NORMAL",
        ObsKind::TimeCritical => "TIME_CRITICAL",
        ObsKind::RapidResponse => "RAPID_RESPONSE",
    }
}

impl Json for ObsKind {
    ghost value = { λ kind. string (kind_name kind) };

    ghost levels = { 0 };

    fn write(&self, out: &mut Vec<u8>) -> Result<(), AllocError> {
        kind_name(*self).write(out)
    }
}

/// A group is written as its document, with the members that [`write_group`] names.
impl Json for GroupDoc {
    ghost value = { group_data };

    ghost levels = { 7 };

    fn write(&self, out: &mut Vec<u8>) -> Result<(), AllocError> {
        object!(
            "ipp_thousandths": self.ipp,
            "name": &self.name,
            "observation_type": self.kind,
            "operator": self.op,
            "priority": self.priority,
            "proposal": &self.proposal,
            "requests": &self.requests,
        )
        .write(out)
    }
}

/// The document of the group, as compact text with members in byte order and no newline: all that [`read_group`]
/// reads, moments as whole numbers, no member of the location that is absent, and `fade` only where it is above 0. A
/// group whose texts, numbers and counts are in the ranges of [`read_group`] is read from it again. Fails only for want
/// of memory.
///
/// [`read_group`]: crate::read_group
pub fn write_group(alloc: Global, group: &GroupDoc) -> Result<Vec<u8>, AllocError>
    ensures text { IfOk result (λ bytes. bytes.items ≡ text_of_group group.now) }
    ensures reads_back { IfOk result
        (λ bytes. IsGroup group.now → group_of_bytes bytes.items ≡ Ok group.now) }
{
    json_text(alloc, group)
}
