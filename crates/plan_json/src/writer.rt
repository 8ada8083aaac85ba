// Documents as text.

ghost use Rattle.std.specs.Prelude.{◌≡◌, ◌≤◌, false, IfOk, Ok};
ghost use Rattle.serde_json.specs.Data.{depth};
ghost use Rattle.serde_json.specs.Read.{max_depth};
ghost use Rattle.serde_json.specs.View.{view};
ghost use Rattle.serde_json.specs.Written.{compact_text, has_float, IsInOrder};
ghost use Rattle.plan_json.specs.Object.{data_of};
ghost use Rattle.plan_json.specs.Order.{IsInByteOrder};

use serde_json::Value;
use std::alloc::{AllocError, Global};

/// Writes documents.
pub struct Writer;

impl Writer {
    /// The compact text of a document, its members in byte order of their names, without a newline. Fails only for
    /// want of memory.
    pub fn text(alloc: Global, value: &Value) -> Result<Vec<u8>, AllocError>
        ensures text { IfOk result
            (λ bytes. has_float (view value.now) ≡ false → bytes.items ≡ compact_text (view value.now)) }
        ensures in_order { IfOk result (λ bytes. IsInOrder bytes.items (view value.now)) }

        // A reader takes no value that nests deeper than 127 levels.
        ensures byte_order { IfOk result
            (λ _. depth (view value.now) ≤ max_depth → IsInByteOrder (view value.now)) }
        ensures reads_back { IfOk result
            (λ bytes. depth (view value.now) ≤ max_depth → data_of bytes.items ≡ Ok (view value.now)) }
    {
        value.to_vec(alloc)
    }
}
