// The times that lie in the horizons of two snapshots, and sets of seconds that are the same there.

ghost use Rattle.std.specs.Prelude.{◌≡◌, ◌+◌, ◌*◌, IsTrue, IfOk};
ghost use Rattle.plan_base.specs.Snapshot.{IsOrderly};
ghost use Rattle.snapshot_starts.specs.Mending.{AreShared, IsSameWithin};

use interval_set::common;
use plan_base::{Parts, Sec, Span};
use std::alloc::{AllocError, Global};

/// The first second of the horizon, and the one after its last.
fn horizon_of(parts: &Parts) -> Span
    requires { IsOrderly parts.now }
    ensures from { result.from.0 ≡ parts.now.first.0 * parts.now.len }
    ensures to { result.to.0 ≡ (parts.now.first.0 + parts.now.slices) * parts.now.len }
{
    let len = u64::from(parts.len);
    let first = u64::from(parts.first.0);
    Span {
        from: Sec(first * len),
        to: Sec((first + u64::from(parts.slices)) * len),
    }
}

/// The seconds that lie in both horizons.
pub(crate) fn shared_times(was: &Parts, parts: &Parts) -> Span
    requires earlier { IsOrderly was.now }
    requires orderly { IsOrderly parts.now }
    ensures { AreShared was.now parts.now result }
{
    common(horizon_of(was), horizon_of(parts))
}

/// The parts of the spans that lie within the times.
fn parts_within(alloc: Global, spans: &[Span], times: Span) -> Result<Vec<Span>, AllocError>
    ensures { IfOk result (λ parts. IsSameWithin times spans.now parts.items) }
{
    let mut parts = Vec::with_capacity(alloc, spans.len())?;
    for span in spans {
        let part = common(*span, times);
        if part.from.0 < part.to.0 {
            parts.push(part)?;
        }
    }
    Ok(parts)
}

/// Whether both lists are known to have the same seconds of these times together. Equal lists take no memory.
pub(crate) fn is_same_within(
    alloc: Global,
    one: &[Span],
    other: &[Span],
    times: Span,
) -> Result<bool, AllocError>
    ensures { IfOk result (λ same. IsTrue same → IsSameWithin times one.now other.now) }
{
    if one == other {
        return Ok(true);
    }
    let mine = parts_within(alloc, one, times)?;
    let theirs = parts_within(alloc, other, times)?;
    Ok(mine == theirs)
}
