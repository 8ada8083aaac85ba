// The spans of a line as a set of seconds.

ghost use Rattle.std.specs.Prelude.{◌≡◌, ◌≤◌, IfOk, length};
ghost use Rattle.plan_base.specs.Limits.{most_spans};
ghost use Rattle.desk_events.specs.Ranges.{AreSpans};
ghost use Rattle.desk_core.specs.Seconds.{spans_of};

use interval_set::Spans;
use plan_base::Span;
use std::alloc::{AllocError, Global};

/// The seconds of a line's spans. Fails only for want of memory.
pub(crate) fn set_of(alloc: Global, spans: &[Span]) -> Result<Spans, AllocError>
    requires { AreSpans spans.now }
    ensures set { IfOk result (λ set. set ≡ spans_of spans.now) }
    ensures few { IfOk result (λ set. length set ≤ most_spans) }
{
    let set = Spans::from_list(alloc, spans)?;
    Ok(set)
}
