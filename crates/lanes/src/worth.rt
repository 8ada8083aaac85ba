// What starts and plans are worth.

ghost use Rattle.std.specs.Prelude.{◌≡◌, ◌≤◌, length, All};
ghost use Rattle.plan_base.specs.Limits.{most_value, most_pending};
ghost use Rattle.plan_base.specs.Starts.{IsPossibleStart, worth_at, value_of_plan};

use plan_base::{Placement, Snapshot, faded, least_from, slices_for};

/// What a plan is worth, of at most 1,024 possible starts.
pub(crate) fn value_of(snapshot: &Snapshot, plan: &[Placement]) -> u64
    requires possible { All (IsPossibleStart snapshot.now) plan.now }
    requires few { length plan.now ≤ most_pending }
    ensures { result ≡ value_of_plan snapshot.now plan.now }
{
    let mut value = 0;
    for start in plan {
        value += worth_of(snapshot, *start);
    }
    value
}

/// What a possible start is worth.
fn worth_of(snapshot: &Snapshot, start: Placement) -> u64
    requires { IsPossibleStart snapshot.now start }
    ensures value { result ≡ worth_at snapshot.now start }
    ensures most { result ≤ most_value }
{
    snapshot.recall_valid();
    let request = snapshot.request_at(snapshot.known_place(start.request));
    let len = u64::from(snapshot.parts().len);
    let earliest = slices_for(len, least_from(request.windows.as_slice()));
    let delay = u64::from(start.slice.0).saturating_sub(earliest);
    faded(u64::from(request.value), u64::from(request.fade), delay)
}
