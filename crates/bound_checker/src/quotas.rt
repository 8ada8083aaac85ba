// Whether a plan keeps within the quotas.

ghost use Rattle.std.specs.Prelude.{◌≡◌, ◌<◌, ◌≤◌, ◌+◌, ◌^◌, ℕ, cond, length, slice_index_or, Some, MatchOption, IfOk};
ghost use Rattle.plan_base.specs.Limits.{most_pending};
ghost use Rattle.plan_base.specs.Requests.{quota_of, IsKnown};
ghost use Rattle.plan_base.specs.Feasible.{is_quota};
ghost use Rattle.plan_base.specs.Verdict.{IsFirst};
ghost use Rattle.bound_checker.specs.Claims.{IsEachKnown, AreQuotaSums};

use crate::known::{known_group, request_of};
use plan_base::{Placement, RequestNo, Snapshot, repeated};
use std::alloc::{AllocError, Global};

/// The seconds that a plan of at most 1,024 placements places of each quota. Fails only for want of memory.
pub(crate) fn sum_seconds(
    alloc: Global,
    snapshot: &Snapshot,
    plan: &[Placement],
) -> Result<Vec<u64>, AllocError>
    requires known { IsEachKnown snapshot.now plan.now }
    requires few { length plan.now ≤ most_pending }
    ensures { IfOk result (λ sums. AreQuotaSums snapshot.now plan.now sums.items) }
{
    let mut sums = repeated(alloc, 0, snapshot.parts().quotas.len())?;
    for placement in plan {
        let quota = known_quota(snapshot, placement.request);
        let seconds = request_of(snapshot, placement.request).seconds;
        add_seconds(&mut sums, quota, u64::from(seconds));
    }
    Ok(sums)
}

/// The quota that the group of a request names, if it names one.
pub fn known_quota(snapshot: &Snapshot, request: RequestNo) -> Option<u16>
    requires { IsKnown snapshot.now request.0 }
    ensures value { result ≡ quota_of snapshot.now request.0 }
    ensures within { (q : ℕ) → result ≡ Some q → q < length snapshot.now.quotas }
{
    let group = known_group(snapshot, request);
    snapshot.parts().groups.as_slice()[group].quota
}

fn add_seconds(sums: &mut Vec<u64>, quota: Option<u16>, seconds: u64)
    requires within { (q : ℕ) → quota ≡ Some q → q < length sums.old.items }
    requires small { (q : ℕ) → quota ≡ Some q → slice_index_or sums.old.items q 0 + seconds < 2 ^ 64 }
    ensures count { length sums.new.items ≡ length sums.old.items }
    ensures added { (q : ℕ) → slice_index_or sums.new.items q 0 ≡ slice_index_or sums.old.items q 0 + cond (is_quota q quota) seconds 0 }
{
    if let Some(quota) = quota {
        sums[usize::from(quota)] += seconds;
    }
}

/// The first quota that its seconds pass.
pub(crate) fn first_quota_over(sums: &[u64], quotas: &[u64]) -> Option<usize>
    requires { length sums.now ≡ length quotas.now }
    ensures { MatchOption result
        ((q : ℕ) → q < length quotas.now → slice_index_or sums.now q 0 ≤ slice_index_or quotas.now q 0)
        (IsFirst (λ q. (q < length quotas.now) × (slice_index_or quotas.now q 0 < slice_index_or sums.now q 0))) }
{
    for (place, quota) in quotas.iter().enumerate() {
        if sums[place] > *quota {
            return Some(place);
        }
    }
    None
}
