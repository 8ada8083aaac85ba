// Groups at the places of their numbers.

ghost use Rattle.std.specs.Prelude.{◌≡◌, ◌-◌, ◌≤◌, ◌<◌, ◌^◌, All, slice_get, length, filter, fold, sum_by, SomeIff};
ghost use Rattle.std.specs.Option.{option_copied};
ghost use Rattle.desk_runs.specs.Changes.{put};
ghost use Rattle.desk_runs.specs.Owners.{pending_of};
ghost use Rattle.desk_runs.specs.Turning.{group_of, is_open_at};

use crate::group::Group;
use plan_base::GroupNo;

/// The place of a number, from 0; 0 has none.
pub(crate) fn place_of(number: u32) -> Option<usize>
    ensures { SomeIff result (1 ≤ number) (number - 1) }
{
    (number as usize).checked_sub(1)
}

/// What stands at a place, if anything does.
pub(crate) fn at_place<T: Drop>(items: &[T], place: usize) -> Option<&T>
    ensures { option_copied result ≡ slice_get items.now place }
{
    items.get(place)
}

/// The group at the place of a number.
pub(crate) fn group_of(groups: &[Group], number: GroupNo) -> &Group
    requires { (1 ≤ number.0) × (number.0 ≤ length groups.now) }
    ensures { result.now ≡ group_of groups.now number }
{
    &groups[(number.0 - 1) as usize]
}

/// Puts groups in the places of their numbers.
pub(crate) fn put_groups(groups: &mut Vec<Group>, changed: Vec<Group>)
    ensures { groups.new.items ≡ fold put groups.old.items changed.items }
{
    for group in changed {
        let place = (group.number.0 as usize).saturating_sub(1);
        if place < groups.len() {
            groups[place] = group;
        }
    }
}

/// Whether the group with a number is open.
fn is_open_at(groups: &[Group], number: GroupNo) -> bool
    ensures { result ≡ is_open_at groups.now number }
{
    let Some(place) = place_of(number.0) else {
        return false;
    };
    match groups.get(place) {
        Some(group) => group.is_open(),
        None => false,
    }
}

/// Keeps the numbers of groups that are open.
pub(crate) fn keep_open(numbers: &mut Vec<GroupNo>, groups: &[Group])
    ensures { numbers.new.items ≡ filter (is_open_at groups.now) numbers.old.items }
{
    numbers.retain(|number| is_open_at(groups, *number));
}

/// How many requests of the groups with these numbers are pending.
pub(crate) fn count_pending(groups: &[Group], numbers: &[GroupNo]) -> usize
    requires there { All (λ n. (1 ≤ n.0) × (n.0 ≤ length groups.now)) numbers.now }
    requires few { sum_by (λ n. pending_of (group_of groups.now n)) numbers.now < 2 ^ 32 }
    ensures { result ≡ sum_by (λ n. pending_of (group_of groups.now n)) numbers.now }
{
    let mut count = 0;
    for number in numbers {
        count += group_of(groups, *number).pending();
    }
    count
}
