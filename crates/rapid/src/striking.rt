// What of a plan has to go for a start.

ghost use Rattle.std.specs.Prelude.{◌≡◌, ◌<◌, ◌^◌, not, ℕ, length, replicate, false, slice_index_or, filter, sum_by, All, IfOk};
ghost use Rattle.rapid.specs.Held.{meets, is_flagged, is_struck, goes_by, AreStruck, HasPlaceBelow, plan_of};

use crate::held::Held;
use plan_base::Placement;
use std::alloc::{AllocError, Global};

/// Whether two take up the same slice.
pub(crate) fn meets(a: &Held, b: &Held) -> bool
    ensures { result ≡ meets a.now b.now }
{
    a.placement.telescope.0 == b.placement.telescope.0
        && u64::from(a.placement.slice.0) < b.after
        && u64::from(b.placement.slice.0) < a.after
}

/// Unsets all flags.
fn clear(flags: &mut [bool])
    ensures { flags.new ≡ replicate (length flags.old) false }
{
    flags.fill(false);
}

/// Sets the flag of the other's `AND`, if it is of one and the start meets it.
fn strike(flags: &mut [bool], start: &Held, other: &Held)
    requires { HasPlaceBelow (length flags.old) other.now }
    ensures { (g : ℕ) → g < length flags.old → slice_index_or flags.new g false ≡ is_struck flags.old start.now other.now g }
{
    if let Some(group) = other.and_place {
        if meets(start, other) {
            flags[group] = true;
        }
    }
}

/// Sets the flags of the groups that are an `AND` of which the start meets one that is held, and unsets all others.
pub(crate) fn strike_ands(start: &Held, held: &[Held], flags: &mut [bool])
    requires { All (HasPlaceBelow (length flags.old)) held.now }
    ensures { AreStruck start.now held.now (length flags.old) flags.new }
{
    clear(flags);
    for other in held {
        strike(flags, start, other);
    }
}

/// Whether the `AND` at this place, if there is one, is flagged.
fn is_flagged(flags: &[bool], and_place: Option<usize>) -> bool
    ensures { result ≡ is_flagged flags.now and_place }
{
    match and_place {
        Some(group) => group < flags.len() && flags[group],
        None => false,
    }
}

/// Whether by these flags the other has to go for the start.
pub(crate) fn goes_by(flags: &[bool], start: &Held, other: &Held) -> bool
    ensures { result ≡ goes_by flags.now start.now other.now }
{
    meets(start, other) || is_flagged(flags, other.and_place)
}

/// What all that has to go is worth.
pub(crate) fn worth_gone(flags: &[bool], start: &Held, held: &[Held]) -> u64
    requires { sum_by (λ h. h.worth) held.now < 2 ^ 60 }
    ensures { result ≡ sum_by (λ h. h.worth) (filter (goes_by flags.now start.now) held.now) }
{
    let mut worth = 0;
    for other in held {
        if goes_by(flags, start, other) {
            worth += other.worth;
        }
    }
    worth
}

/// The seconds of all that can stay which count towards the quota.
pub(crate) fn counted_kept(flags: &[bool], start: &Held, held: &[Held]) -> u64
    requires { sum_by (λ h. h.counted) held.now < 2 ^ 60 }
    ensures { result ≡ sum_by (λ h. h.counted) (filter (λ h. not (goes_by flags.now start.now h)) held.now) }
{
    let mut counted = 0;
    for other in held {
        if !goes_by(flags, start, other) {
            counted += other.counted;
        }
    }
    counted
}

/// All that has to go. Fails only for want of memory.
pub(crate) fn gone(
    alloc: Global,
    flags: &[bool],
    start: &Held,
    held: &[Held],
) -> Result<Vec<Placement>, AllocError>
    ensures { IfOk result (λ plan. plan.items ≡ plan_of (filter (goes_by flags.now start.now) held.now)) }
{
    held.iter()
        .filter(|other| goes_by(flags, start, other))
        .map(|other| other.placement)
        .collect(alloc)
}

/// All that can stay. Fails only for want of memory.
pub(crate) fn kept(
    alloc: Global,
    flags: &[bool],
    start: &Held,
    held: &[Held],
) -> Result<Vec<Placement>, AllocError>
    ensures { IfOk result (λ plan. plan.items ≡ plan_of (filter (λ h. not (goes_by flags.now start.now h)) held.now)) }
{
    held.iter()
        .filter(|other| !goes_by(flags, start, other))
        .map(|other| other.placement)
        .collect(alloc)
}
