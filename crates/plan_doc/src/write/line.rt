// Answers of one line.

ghost use Rattle.std.specs.Prelude.{◌≡◌, ◌≤◌, IfOk};
ghost use Rattle.serde_json.specs.Read.{max_depth};
ghost use Rattle.plan_json.specs.Line.{line_of};

use plan_io::{Answer, Said};
use plan_json::{Json, line_text};
use std::alloc::{AllocError, Global};

/// The answer that is one line, a value, and says so of a document. Fails only for want of memory.
pub fn answer_line<T: Json>(alloc: Global, value: &T, said: Said) -> Result<Answer, AllocError>
    requires { T.levels ≤ max_depth }
    ensures text { IfOk result (λ a. a.text.items ≡ line_of (T.value value.now)) }
    ensures said { IfOk result (λ a. a.said ≡ said) }
{
    let text = line_text(alloc, value)?;
    Ok(Answer { text, said })
}
