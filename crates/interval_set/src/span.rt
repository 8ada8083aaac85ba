// What single spans have in common, and what lies between them.

ghost use Rattle.std.specs.Prelude.{◌≡◌, ◌≤◌, ◌<◌, length, HoldsAt};
ghost use Rattle.interval_set.specs.Steps.{IsCommon};

use plan_base::{Sec, Span};

/// The seconds that both spans have. Where they have none in common, it doesn't end after it begins.
pub fn common(one: Span, other: Span) -> Span
    ensures { IsCommon one other result }
{
    Span {
        from: one.from.max(other.from),
        to: one.to.min(other.to),
    }
}

/// The seconds from `from` to the beginning of the span at place `next`, or to `end` where there is none.
pub(crate) fn gap_before(from: Sec, spans: &[Span], next: usize, end: Sec) -> Span
    ensures from { result.from ≡ from }
    ensures before { next < length spans.now → HoldsAt (λ s. result.to ≡ s.from) spans.now next }
    ensures last { length spans.now ≤ next → result.to ≡ end }
{
    let to = if next < spans.len() {
        spans[next].from
    } else {
        end
    };
    Span { from, to }
}
