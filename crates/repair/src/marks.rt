// Marks at the slots that a plan occupies. The mark of a slot is the slot after the last of the placement that occupies
// it, so a search goes past a placement in one step; a free slot has the mark 0.

ghost use Rattle.std.specs.Prelude.{◌≡◌, ℕ, ◌+◌, ◌≤◌, ◌<◌, ◌&&◌, nat_le, nat_lt, length, cond, slice_index_or, MatchOption};
ghost use Rattle.repair.specs.Marks.{IsMarkWithin, IsClear, IsFirstClear, AreSkips};

/// The mark of one of the slots from `from` to the one before `to`, the last that has one, or 0 where all are free.
fn mark_within(marks: &[u16], from: usize, to: usize) -> u16
    requires { to ≤ length marks.now }
    ensures { IsMarkWithin marks.now from to result }
{
    for slot in (from..to).rev() {
        if marks[slot] != 0 {
            return marks[slot];
        }
    }
    0
}

/// The first slot from `from` to the one before `to` with which `size` free slots begin. It goes past each placement that
/// is in the way in one step.
pub(crate) fn first_clear(marks: &[u16], from: usize, to: usize, size: usize) -> Option<usize>
    requires size { 0 < size }
    requires within { to + size ≤ length marks.now + 1 }
    requires skips { AreSkips marks.now }
    ensures { MatchOption result
        ((k : ℕ) → from ≤ k → k < to → ¬ (IsClear marks.now k (k + size)))
        (IsFirstClear marks.now from to size) }
{
    let mut slot = from;
    while slot < to {
        let mark = mark_within(marks, slot, slot + size);
        if mark == 0 {
            return Some(slot);
        }
        slot = usize::from(mark);
    }
    None
}

/// Writes a mark at the slots from `from` to the one before `to`.
pub(crate) fn write_marks(marks: &mut Vec<u16>, from: usize, to: usize, mark: u16)
    requires order { from ≤ to }
    requires within { to ≤ length marks.old.items }
    ensures count { length marks.new.items ≡ length marks.old.items }
    ensures each { (i : ℕ) → slice_index_or marks.new.items i 0 ≡ cond (nat_le from i && nat_lt i to) mark (slice_index_or marks.old.items i 0) }
{
    for slot in from..to {
        marks[slot] = mark;
    }
}

/// Makes all slots free.
pub(crate) fn clear_marks(marks: &mut Vec<u16>)
    ensures count { length marks.new.items ≡ length marks.old.items }
    ensures clear { (i : ℕ) → slice_index_or marks.new.items i 0 ≡ 0 }
{
    marks.as_mut_slice().fill(0);
}
