// The lists of a new book.

ghost use Rattle.std.specs.Prelude.{◌≡◌, [], None, replicate, IfOk};

use plan_base::{ListOf, Taken};
use plan_io::ScriptLine;
use std::alloc::{AllocError, Global};

/// So many scripts without a line.
pub(crate) fn no_scripts(alloc: Global, count: usize) -> Result<Vec<ListOf<ScriptLine>>, AllocError>
    ensures { IfOk result (λ scripts. scripts.items ≡ replicate count []) }
{
    let mut scripts = Vec::new(alloc);
    for _ in 0..count {
        scripts.push(ListOf::new(alloc))?;
    }
    Ok(scripts)
}

/// No open Take, for so many callers.
pub(crate) fn no_takes(alloc: Global, count: usize) -> Result<Vec<Option<Taken>>, AllocError>
    ensures { IfOk result (λ takes. takes.items ≡ replicate count None) }
{
    let mut takes = Vec::new(alloc);
    for _ in 0..count {
        takes.push(None)?;
    }
    Ok(takes)
}
