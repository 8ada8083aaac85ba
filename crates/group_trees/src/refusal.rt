// Faults of trees, as they are written.

ghost use Rattle.std.specs.Prelude.{◌≡◌};
ghost use Rattle.plan_json.specs.Adds.{AddsNested};
ghost use Rattle.group_trees.specs.Texts.{number_of_forest, name_of_forest, fields_of_forest, forest_fault_at, forest_fault_data};

use crate::fault::ForestFault;
use plan_json::{Json, object};
use std::alloc::AllocError;

/// The fields that a fault has beside its name, each where it has it.
#[derive(Clone, Copy)]
struct FaultFields {
    group: Option<u32>,
    request: Option<u32>,
    tree: Option<u64>,
}

const NO_FIELDS: FaultFields = FaultFields {
    group: None,
    request: None,
    tree: None,
};

fn number(fault: ForestFault) -> u8
    ensures { result ≡ number_of_forest fault }
{
    match fault {
        ForestFault::NotSingle { .. } => 51,
        ForestFault::TreeLeaf { .. } => 52,
        ForestFault::TreeDeep { .. } => 53,
        ForestFault::TreeEmpty { .. } => 54,
        ForestFault::HasQuota => 55,
        ForestFault::NoMemory => 0,
    }
}

fn name(fault: ForestFault) -> &'static str
    ensures { result.now ≡ name_of_forest fault }
{
    match fault {
        ForestFault::NotSingle { .. } => "NotSingle",
        ForestFault::TreeLeaf { .. } => "TreeLeaf",
        ForestFault::TreeDeep { .. } => "TreeDeep",
        ForestFault::TreeEmpty { .. } => "TreeEmpty",
        ForestFault::HasQuota => "HasQuota",
        ForestFault::NoMemory => "NoMemory",
    }
}

fn fields(fault: ForestFault) -> FaultFields
    ensures { result ≡ fields_of_forest fault }
{
    match fault {
        ForestFault::NotSingle { group } => FaultFields {
            group: Some(group.0),
            ..NO_FIELDS
        },
        ForestFault::TreeLeaf { request } => FaultFields {
            request: Some(request.0),
            ..NO_FIELDS
        },
        ForestFault::TreeDeep { tree } | ForestFault::TreeEmpty { tree } => FaultFields {
            tree: Some(tree as u64),
            ..NO_FIELDS
        },
        ForestFault::HasQuota | ForestFault::NoMemory => NO_FIELDS,
    }
}

/// Adds an object with a fault's number, name and fields.
fn write_fault(
    number: u8,
    name: &str,
    fields: &FaultFields,
    out: &mut Vec<u8>,
) -> Result<(), AllocError>
    ensures { AddsNested result out.old.items out.new.items 1 (forest_fault_at number name.now fields.now) }
{
    object!(
        "group"?: &fields.group,
        "no": number,
        "refused": name,
        "request"?: &fields.request,
        "tree"?: &fields.tree,
    )
    .write(out)
}

/// A fault is written as an object: `no`, its number, `refused`, its name, and its fields. Want of memory, which no
/// reply tells, has the number 0.
impl Json for ForestFault {
    ghost value = { forest_fault_data };

    ghost levels = { 1 };

    fn write(&self, out: &mut Vec<u8>) -> Result<(), AllocError> {
        let fields = fields(*self);
        write_fault(number(*self), name(*self), &fields, out)
    }
}
