// The words for how the requests of a group belong together.

ghost use Rattle.std.specs.Prelude.{◌≡◌};
ghost use Rattle.serde_json.specs.Data.{string};
ghost use Rattle.serde_json.specs.View.{view};
ghost use Rattle.plan_json.specs.Operator.{operator_name, operator_named, operator_in};

use crate::fault::JsonFault;
use crate::member::Member;
use crate::word;
use crate::write::Json;
use plan_base::Op;
use serde_json::Value;
use std::alloc::AllocError;

fn operator_named(name: &str) -> Option<Op>
    ensures { result ≡ operator_named name.now }
{
    match name {
        "SINGLE" => Some(Op::Single),
        "MANY" => Some(Op::Many),
        "ONEOF" => Some(Op::OneOf),
        "AND" => Some(Op::And),
        _ => None,
    }
}

/// The operator.
pub(crate) fn operator_in(value: &Value, member: Member) -> Result<Op, JsonFault>
    ensures { result ≡ operator_in member (view value.now) }
{
    let Some(name) = value.as_str() else {
        return Err(JsonFault::WrongKind { member });
    };
    operator_named(name).ok_or(JsonFault::OutOfRange { member })
}

impl Json for Op {
    ghost value = { λ op. string (operator_name op) };

    ghost levels = { 0 };

    fn write(&self, out: &mut Vec<u8>) -> Result<(), AllocError> {
        match self {
            Op::Single => word!("SINGLE").write(out),
            Op::Many => word!("MANY").write(out),
            Op::OneOf => word!("ONEOF").write(out),
            Op::And => word!("AND").write(out),
        }
    }
}
