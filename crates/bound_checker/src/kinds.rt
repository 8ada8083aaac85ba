// Whether a plan obeys the kinds of the groups.

ghost use Rattle.std.specs.Prelude.{◌≡◌, ◌<◌, ◌↔◌, ℕ, length, MatchOption, IfOk, IsTrue};
ghost use Rattle.plan_base.specs.Verdict.{IsFirst};
ghost use Rattle.bound_checker.specs.Claims.{IsEachKnown, AreGroupCounts, IsTwice, IsPartial, HoldsOfGroup};

use crate::known::known_group;
use plan_base::{GroupPart, Op, Placement, Snapshot, repeated};
use std::alloc::{AllocError, Global};

/// How many requests of each group a plan places. Fails only for want of memory.
pub(crate) fn count_placed(
    alloc: Global,
    snapshot: &Snapshot,
    plan: &[Placement],
) -> Result<Vec<usize>, AllocError>
    requires { IsEachKnown snapshot.now plan.now }
    ensures { IfOk result (λ counts. AreGroupCounts snapshot.now plan.now counts.items) }
{
    let mut counts = repeated(alloc, 0, snapshot.parts().groups.len())?;
    for placement in plan {
        let group = known_group(snapshot, placement.request);
        counts[group] += 1;
    }
    Ok(counts)
}

/// The place of the first `ONEOF` with two placements or more.
pub(crate) fn first_oneof_twice(groups: &[GroupPart], counts: &[usize]) -> Option<usize>
    requires { length counts.now ≡ length groups.now }
    ensures { MatchOption result ((g : ℕ) → ¬ (HoldsOfGroup IsTwice groups.now counts.now g))
        (λ g. (g < length groups.now) × IsFirst (HoldsOfGroup IsTwice groups.now counts.now) g) }
{
    for (place, group) in groups.iter().enumerate() {
        if is_twice(group, counts[place]) {
            return Some(place);
        }
    }
    None
}

/// The place of the first `AND` that is placed in part.
pub(crate) fn first_and_partial(groups: &[GroupPart], counts: &[usize]) -> Option<usize>
    requires { length counts.now ≡ length groups.now }
    ensures { MatchOption result ((g : ℕ) → ¬ (HoldsOfGroup IsPartial groups.now counts.now g))
        (λ g. (g < length groups.now) × IsFirst (HoldsOfGroup IsPartial groups.now counts.now) g) }
{
    for (place, group) in groups.iter().enumerate() {
        if is_partial(group, counts[place]) {
            return Some(place);
        }
    }
    None
}

fn is_twice(group: &GroupPart, placed: usize) -> bool
    ensures { IsTrue result ↔ IsTwice group.now placed }
{
    match group.op {
        Op::OneOf => placed >= 2,
        Op::Single | Op::Many | Op::And => false,
    }
}

fn is_partial(group: &GroupPart, placed: usize) -> bool
    ensures { IsTrue result ↔ IsPartial group.now placed }
{
    match group.op {
        Op::And => placed > 0 && placed < group.requests.len(),
        Op::Single | Op::Many | Op::OneOf => false,
    }
}
