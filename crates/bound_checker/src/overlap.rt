// Whether placements share a slice.

ghost use Rattle.std.specs.Prelude.{◌≡◌, ◌≤◌, ◌<◌, ◌&&◌, nat_le, nat_lt, ℕ, length, false, true, cond, slice_index_or, IsTrue, MatchOption, IfOk};
ghost use Rattle.plan_base.specs.Starts.{IsPossibleStart, ShareSlice};
ghost use Rattle.plan_base.specs.Feasible.{IsEachPossible, IsDisjoint};
ghost use Rattle.plan_base.specs.Verdict.{IsFirst, HasEarlier};
ghost use Rattle.bound_checker.specs.Slots.{AreSlots};

use crate::known::request_of;
use plan_base::{Placement, Snapshot, repeated, slices_for};
use std::alloc::{AllocError, Global};

/// The slots of a placement: slot `t * slices + i` is slice `i` of the horizon on telescope `t`.
#[derive(Clone, Copy)]
pub(crate) struct Slots {
    /// The first slot.
    pub from: usize,
    /// The slot after the last.
    pub to: usize,
}

/// The first placement that shares a slice with one before it. Fails only for want of memory.
pub(crate) fn first_overlap(
    alloc: Global,
    snapshot: &Snapshot,
    plan: &[Placement],
) -> Result<Option<usize>, AllocError>
    requires { IsEachPossible snapshot.now plan.now }
    ensures { IfOk result (λ first. MatchOption first (IsDisjoint snapshot.now plan.now) (IsFirst (HasEarlier (ShareSlice snapshot.now) plan.now))) }
{
    let parts = snapshot.parts();
    let mut occupied = repeated(alloc, false, parts.telescopes.len() * parts.slices as usize)?;
    for (index, placement) in plan.iter().enumerate() {
        let slots = slots_of(snapshot, *placement);
        if !are_clear(occupied.as_slice(), slots) {
            return Ok(Some(index));
        }
        occupy(&mut occupied, slots);
    }
    Ok(None)
}

fn slots_of(snapshot: &Snapshot, placement: Placement) -> Slots
    requires { IsPossibleStart snapshot.now placement }
    ensures { AreSlots snapshot.now placement result }
{
    let parts = snapshot.parts();
    let seconds = request_of(snapshot, placement.request).seconds;
    let size = slices_for(u64::from(parts.len), u64::from(seconds));
    let slice = placement.slice.0 - parts.first.0;
    let from = usize::from(placement.telescope.0) * parts.slices as usize + slice as usize;
    Slots {
        from,
        to: from + size as usize,
    }
}

/// Whether none of the flags of these slots is set.
fn are_clear(flags: &[bool], slots: Slots) -> bool
    requires { slots.to ≤ length flags.now }
    ensures clear { IsTrue result → (i : ℕ) → slots.from ≤ i → i < slots.to → slice_index_or flags.now i false ≡ false }
    ensures taken { result ≡ false → (i : ℕ) × (slots.from ≤ i) × (i < slots.to) × (slice_index_or flags.now i false ≡ true) }
{
    for slot in slots.from..slots.to {
        if flags[slot] {
            return false;
        }
    }
    true
}

/// Sets the flags of these slots.
fn occupy(flags: &mut Vec<bool>, slots: Slots)
    requires order { slots.from ≤ slots.to }
    requires within { slots.to ≤ length flags.old.items }
    ensures count { length flags.new.items ≡ length flags.old.items }
    ensures set { (i : ℕ) → slice_index_or flags.new.items i false
        ≡ cond (nat_le slots.from i && nat_lt i slots.to) true (slice_index_or flags.old.items i false) }
{
    for slot in slots.from..slots.to {
        flags[slot] = true;
    }
}
