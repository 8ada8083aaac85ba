//! Whether two books have the same lines.
ghost use Rattle.std.specs.Prelude.{◌≡◌, ◌<◌, length, IsTrue};
ghost use Rattle.desk_core.specs.History.{script_of};

use desk_book::Book;
use plan_io::{MOST_LINES, ScriptLine};

/// Whether two lines are the same.
fn is_same_line(a: &ScriptLine, b: &ScriptLine) -> bool
    ensures { IsTrue result → a.now ≡ b.now }
{
    a == b
}

/// Whether a caller sends the same lines in two books.
fn is_same_script(a: &Book, b: &Book, caller: u8) -> bool
    requires a { caller < length a.now.scripts }
    requires b { caller < length b.now.scripts }
    ensures { IsTrue result → script_of a.now.scripts caller ≡ script_of b.now.scripts caller }
{
    // At the place after the most lines that a script may have, both have none.
    for index in 0..MOST_LINES + 1 {
        match (a.line(caller, index), b.line(caller, index)) {
            (None, None) => return true,
            (Some(one), Some(other)) if is_same_line(one, other) => (),
            _ => return false,
        }
    }
    false
}

/// Whether all callers send the same lines in two books.
pub(crate) fn is_same(a: &Book, b: &Book) -> bool
    ensures { IsTrue result → a.now.scripts ≡ b.now.scripts }
{
    let callers = a.callers();
    if b.callers() != callers {
        return false;
    }
    for caller in 0..callers {
        if !is_same_script(a, b, caller) {
            return false;
        }
    }
    true
}
