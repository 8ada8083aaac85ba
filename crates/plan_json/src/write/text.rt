// Whole documents as text.

ghost use Rattle.std.specs.Prelude.{◌≡◌, ◌≤◌, ◌++◌, IfOk, OnOk, OnErr, Ok};
ghost use Rattle.serde_json.specs.Read.{max_depth};
ghost use Rattle.plan_json.specs.Adds.{text_of, IsFrontOf, AddsValue};
ghost use Rattle.plan_json.specs.Exact.{IsWritten};
ghost use Rattle.plan_json.specs.Line.{line_of};
ghost use Rattle.plan_json.specs.Object.{data_of};

use crate::write::value::Json;
use std::alloc::{AllocError, Global};

/// Adds the compact text of a document at the end, without a newline. Fails only for want of memory, and then leaves
/// what was there, perhaps with a part of the text after it.
#[inline]
pub fn write_json<T: Json>(value: &T, out: &mut Vec<u8>) -> Result<(), AllocError>
    requires { T.levels ≤ max_depth }
    ensures { AddsValue result out.old.items out.new.items (T.value value.now) }
{
    value.write(out)
}

/// The compact text of a document, without a newline. Fails only for want of memory.
pub fn json_text<T: Json>(alloc: Global, value: &T) -> Result<Vec<u8>, AllocError>
    requires { T.levels ≤ max_depth }
    ensures text { IfOk result (λ bytes. bytes.items ≡ text_of (T.value value.now)) }
    ensures written { IfOk result (λ _. IsWritten max_depth (T.value value.now)) }
    ensures reads_back { IfOk result (λ bytes. data_of bytes.items ≡ Ok (T.value value.now)) }
{
    let mut out = Vec::new(alloc);
    write_json(value, &mut out)?;
    Ok(out)
}

/// Adds the compact text of a value and a newline. Fails only for want of memory, and then leaves what was there, perhaps
/// with a part of the text after it.
pub fn add_line<T: Json>(value: &T, out: &mut Vec<u8>) -> Result<(), AllocError>
    requires { T.levels ≤ max_depth }
    ensures ok { OnOk result (out.new.items ≡ out.old.items ++ line_of (T.value value.now)) }
    ensures err { OnErr result (IsFrontOf out.old.items out.new.items) }
{
    write_json(value, out)?;
    out.push(b'\n')?;
    Ok(())
}

/// The compact text of a value and a newline. Fails only for want of memory.
pub fn line_text<T: Json>(alloc: Global, value: &T) -> Result<Vec<u8>, AllocError>
    requires { T.levels ≤ max_depth }
    ensures { IfOk result (λ text. text.items ≡ line_of (T.value value.now)) }
{
    let mut text = Vec::new(alloc);
    add_line(value, &mut text)?;
    Ok(text)
}
