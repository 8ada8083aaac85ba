// What the snapshot has of a group and of a start of a request.

ghost use Rattle.std.specs.Prelude.{◌≡◌, ◌<◌, ◌≤◌, ◌+◌, ◌-◌, length, map};
ghost use Rattle.plan_base.specs.Limits.{most_seconds, most_value};
ghost use Rattle.plan_base.specs.Round.{op_at};
ghost use Rattle.plan_base.specs.Starts.{slices_for, least_of, faded};
ghost use Rattle.bound_checker.specs.Claims.{IsRequestInRanges};

use plan_base::{Op, RequestPart, SliceNo, Snapshot, faded, least_from, slices_for};

/// The kind of the group at a place.
pub(crate) fn op_at(snapshot: &Snapshot, group: usize) -> Op
    requires { group < length snapshot.now.groups }
    ensures { result ≡ op_at snapshot.now group }
{
    snapshot.parts().groups.as_slice()[group].op
}

/// The slice after the last of the request, where it begins at this one.
pub(crate) fn slice_after(snapshot: &Snapshot, request: &RequestPart, slice: SliceNo) -> u64
    requires { request.now.seconds ≤ most_seconds }
    ensures { result ≡ slice.0 + slices_for snapshot.now.len request.now.seconds }
{
    let parts = snapshot.parts();
    u64::from(slice.0) + slices_for(u64::from(parts.len), u64::from(request.seconds))
}

/// What the request is worth where it begins at this slice.
pub(crate) fn worth_of(snapshot: &Snapshot, request: &RequestPart, slice: SliceNo) -> u64
    requires { IsRequestInRanges (length snapshot.now.telescopes) request.now }
    ensures value { result ≡ faded request.now.value request.now.fade
        (slice.0 - slices_for snapshot.now.len (least_of (map (λ w. w.from.0) request.now.windows))) }
    ensures most { result ≤ most_value }
{
    let len = u64::from(snapshot.parts().len);
    let earliest = slices_for(len, least_from(request.windows.as_slice()));
    let delay = u64::from(slice.0).saturating_sub(earliest);
    faded(u64::from(request.value), u64::from(request.fade), delay)
}
