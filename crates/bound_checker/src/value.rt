// What a plan is worth.

ghost use Rattle.std.specs.Prelude.{◌≡◌, ◌≤◌, length};
ghost use Rattle.plan_base.specs.Limits.{most_value, most_pending};
ghost use Rattle.plan_base.specs.Requests.{IsKnown};
ghost use Rattle.plan_base.specs.Starts.{worth_at, value_of_plan};
ghost use Rattle.bound_checker.specs.Claims.{IsEachKnown};

use crate::known::request_of;
use plan_base::{Placement, Snapshot, faded, least_from, slices_for};

/// What a plan of at most 1,024 placements is worth.
pub(crate) fn value_of(snapshot: &Snapshot, plan: &[Placement]) -> u64
    requires known { IsEachKnown snapshot.now plan.now }
    requires few { length plan.now ≤ most_pending }
    ensures { result ≡ value_of_plan snapshot.now plan.now }
{
    let mut value = 0;
    for placement in plan {
        value += worth_of(snapshot, *placement);
    }
    value
}

/// What a placement of a request that the snapshot has is worth.
fn worth_of(snapshot: &Snapshot, placement: Placement) -> u64
    requires { IsKnown snapshot.now placement.request.0 }
    ensures value { result ≡ worth_at snapshot.now placement }
    ensures most { result ≤ most_value }
{
    let request = request_of(snapshot, placement.request);
    let len = u64::from(snapshot.parts().len);
    let earliest = slices_for(len, least_from(request.windows.as_slice()));
    let delay = u64::from(placement.slice.0).saturating_sub(earliest);
    faded(u64::from(request.value), u64::from(request.fade), delay)
}
