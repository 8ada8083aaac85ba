// What closures and reopenings make of the closed seconds of telescopes.

ghost use Rattle.std.specs.Prelude.{◌≡◌, ◌≢◌, ◌<◌, ◌≤◌, length, All, IfOk, IfErr};
ghost use Rattle.site_model.specs.declared.fault.SiteFault.TheVariants.{NoMemory};
ghost use Rattle.site_model.specs.declared.fault.FullOf.TheVariants.{Closures};
ghost use Rattle.site_model.specs.Limits.{most_closures, full};
ghost use Rattle.site_model.specs.Calendar.{IsChanged, PassesClosures, IsListed, IsFullClosure, AreChanges, with_changes};

use crate::fault::{FullOf, SiteFault};
use interval_set::Spans;
use plan_base::TelescopeNo;
use std::alloc::Global;

/// What a line does with the closures of telescopes.
#[derive(Clone, Copy)]
pub enum Change {
    /// Its seconds are added.
    Close,
    /// Its seconds are taken away.
    Reopen,
}

/// The closed seconds that a telescope is to have.
#[derive(Drop)]
pub(crate) struct Closed {
    /// The number of the telescope.
    pub telescope: TelescopeNo,
    /// All seconds in which it is to be closed.
    pub spans: Spans,
}

/// What the line makes of closed seconds. `Full` comes where that has too many pieces.
fn changed(alloc: Global, change: Change, closed: &Spans, spans: &Spans) -> Result<Spans, SiteFault>
    ensures changed { IfOk result (IsChanged change closed.now spans.now) }
    ensures few { IfOk result (λ changed. length changed ≤ most_closures) }
    ensures passes { IfErr result (λ fault. fault ≢ NoMemory → PassesClosures change closed.now spans.now) }
    ensures full { IfErr result (λ fault. fault ≢ NoMemory → fault ≡ full Closures) }
{
    let changed = match change {
        Change::Close => closed.union(alloc, spans)?,
        Change::Reopen => closed.minus(alloc, spans)?,
    };
    if changed.len() > FullOf::Closures.most() {
        return Err(SiteFault::full(FullOf::Closures));
    }
    Ok(changed)
}

/// What the line makes of the closures of each of the telescopes. `Full` comes where one of them has too many pieces.
pub(crate) fn changes_of(
    alloc: Global,
    change: Change,
    telescopes: &[TelescopeNo],
    spans: &Spans,
    closures: &[Spans],
) -> Result<Vec<Closed>, SiteFault>
    requires { All (λ t. t.0 < length closures.now) telescopes.now }
    ensures changes { IfOk result (λ changes. AreChanges change telescopes.now spans.now closures.now changes.items) }
    ensures full { IfErr result (λ fault. fault ≢ NoMemory → IsFullClosure change (IsListed telescopes.now) spans.now closures.now fault) }
{
    let mut changes = Vec::with_capacity(alloc, telescopes.len())?;
    for telescope in telescopes {
        let closed = &closures[telescope.0 as usize];
        let spans = changed(alloc, change, closed, spans)?;
        changes.push(Closed {
            telescope: *telescope,
            spans,
        })?;
    }
    Ok(changes)
}

/// Puts each change in the place of its telescope.
pub(crate) fn put(closures: &mut Vec<Spans>, changes: Vec<Closed>)
    requires { All (λ c. c.telescope.0 < length closures.old.items) changes.items }
    ensures { closures.new.items ≡ with_changes closures.old.items changes.items }
{
    for change in changes {
        closures[change.telescope.0 as usize] = change.spans;
    }
}
