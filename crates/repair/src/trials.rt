// What fill tries of a snapshot, made once.

ghost use Rattle.std.specs.Prelude.{◌≡◌, ◌≤◌, ◌<◌, max, length, map, fold, sum_by, All, IfOk};
ghost use Rattle.plan_base.specs.Limits.{most_value, most_members};
ghost use Rattle.plan_base.specs.Requests.{IsKnown};
ghost use Rattle.plan_base.specs.Fill.{worth_of_group, IsFillOrder};
ghost use Rattle.snapshot_starts.specs.Runs.{AreAllStarts};
ghost use Rattle.repair.specs.Entries.{IsEntry, numbers_of, number_at};
ghost use Rattle.repair.specs.Orders.{IsFallingOrder};
ghost use Rattle.repair.specs.Trials.{IsTrial, AreTrialsOf, AreTrials, trial_worth};

use crate::entry::{Entry, entry_of};
use crate::order::falling_order;
use plan_base::{GroupPart, Op, RequestPart, Snapshot};
use snapshot_starts::Starts;
use std::alloc::{AllocError, Global};

/// A group, with its requests in the order in which they are tried.
pub(crate) struct Trial {
    /// Which of its requests may be placed together.
    pub op: Op,
    /// Its requests, in that order.
    pub entries: Vec<Entry>,
}

impl Drop for Trial {
    fn drop(self) {
        let Self { op: _, entries: _ } = self;
    }
}

/// All groups in their order, and their places in the order of a pass.
pub(crate) struct Trials {
    /// The groups, in the snapshot's order.
    pub groups: Vec<Trial>,
    /// Their places, by falling worth, then by place.
    pub order: Vec<usize>,
}

impl Drop for Trials {
    fn drop(self) {
        let Self {
            groups: _,
            order: _,
        } = self;
    }
}

impl Trials {
    /// What fill tries. The starts are all possible starts of the snapshot. Fails only for want of memory.
    pub(crate) fn new(
        alloc: Global,
        snapshot: &Snapshot,
        starts: &Starts,
    ) -> Result<Trials, AllocError>
        requires { AreAllStarts snapshot.now starts.now }
        ensures { IfOk result (AreTrials snapshot.now) }
    {
        let groups = trials_of(alloc, snapshot, starts)?;
        let order = fill_order(alloc, snapshot)?;
        Ok(Trials { groups, order })
    }
}

/// The places of all groups by falling worth, then group.
fn fill_order(alloc: Global, snapshot: &Snapshot) -> Result<Vec<usize>, AllocError>
    ensures { IfOk result (λ order. IsFillOrder snapshot.now order.items) }
{
    snapshot.recall_valid();
    let worths = group_worths(alloc, snapshot.parts().groups.as_slice())?;
    falling_order(alloc, &worths)
}

fn group_worths(alloc: Global, groups: &[GroupPart]) -> Result<Vec<u64>, AllocError>
    requires count { All (λ x. length x.requests ≤ most_members) groups.now }
    requires values { All (λ x. All (λ q. q.value ≤ most_value) x.requests) groups.now }
    ensures { IfOk result (λ worths. worths.items ≡ map worth_of_group groups.now) }
{
    let mut worths = Vec::with_capacity(alloc, groups.len())?;
    for group in groups {
        worths.push(group_worth(group))?;
    }
    Ok(worths)
}

/// The sum of the values of a group's requests, for a ONEOF the greatest of them.
fn group_worth(group: &GroupPart) -> u64
    requires count { length group.now.requests ≤ most_members }
    requires values { All (λ q. q.value ≤ most_value) group.now.requests }
    ensures { result ≡ worth_of_group group.now }
{
    match group.op {
        Op::OneOf => greatest_value(group.requests.as_slice()),
        Op::Single | Op::Many | Op::And => value_sum(group.requests.as_slice()),
    }
}

fn greatest_value(requests: &[RequestPart]) -> u64
    ensures { result ≡ fold max 0 (map (λ q. q.value) requests.now) }
{
    let mut greatest = 0;
    for request in requests {
        greatest = greatest.max(u64::from(request.value));
    }
    greatest
}

fn value_sum(requests: &[RequestPart]) -> u64
    requires count { length requests.now ≤ most_members }
    requires values { All (λ q. q.value ≤ most_value) requests.now }
    ensures { result ≡ sum_by (λ v. v) (map (λ q. q.value) requests.now) }
{
    let mut sum = 0;
    for request in requests {
        sum += u64::from(request.value);
    }
    sum
}

fn trials_of(alloc: Global, snapshot: &Snapshot, starts: &Starts) -> Result<Vec<Trial>, AllocError>
    requires { AreAllStarts snapshot.now starts.now }
    ensures { IfOk result (λ trials. AreTrialsOf snapshot.now (length snapshot.now.groups) trials.items) }
{
    let groups = snapshot.parts().groups.as_slice();
    let mut trials = Vec::with_capacity(alloc, groups.len())?;
    for group in 0..groups.len() {
        trials.push(trial_of(alloc, snapshot, starts, group)?)?;
    }
    Ok(trials)
}

/// The group at a place as it is tried.
fn trial_of(
    alloc: Global,
    snapshot: &Snapshot,
    starts: &Starts,
    group: usize,
) -> Result<Trial, AllocError>
    requires group { group < length snapshot.now.groups }
    requires starts { AreAllStarts snapshot.now starts.now }
    ensures { IfOk result (IsTrial snapshot.now group) }
{
    let part = &snapshot.parts().groups.as_slice()[group];
    let requests = part.requests.as_slice();
    let order = trial_order(alloc, part.op, requests)?;
    let entries = entries_of(alloc, snapshot, starts, requests, &order)?;
    Ok(Trial {
        op: part.op,
        entries,
    })
}

/// The places of a group's requests in the order in which they are tried: of a ONEOF by falling value.
fn trial_order(alloc: Global, op: Op, requests: &[RequestPart]) -> Result<Vec<usize>, AllocError>
    ensures { IfOk result (λ order. IsFallingOrder (map (trial_worth op) requests.now) order.items) }
{
    let worths = trial_worths(alloc, op, requests)?;
    falling_order(alloc, &worths)
}

fn trial_worths(alloc: Global, op: Op, requests: &[RequestPart]) -> Result<Vec<u64>, AllocError>
    ensures { IfOk result (λ worths. worths.items ≡ map (trial_worth op) requests.now) }
{
    let mut worths = Vec::with_capacity(alloc, requests.len())?;
    for request in requests {
        worths.push(trial_worth(op, request))?;
    }
    Ok(worths)
}

/// What decides in which order a group's requests are tried, beside their numbers.
fn trial_worth(op: Op, request: &RequestPart) -> u64
    ensures { result ≡ trial_worth op request.now }
{
    match op {
        Op::OneOf => u64::from(request.value),
        Op::Single | Op::Many | Op::And => 0,
    }
}

fn entries_of(
    alloc: Global,
    snapshot: &Snapshot,
    starts: &Starts,
    requests: &[RequestPart],
    order: &[usize],
) -> Result<Vec<Entry>, AllocError>
    requires starts { AreAllStarts snapshot.now starts.now }
    requires known { All (λ q. IsKnown snapshot.now q.request.0) requests.now }
    requires within { All (λ i. i < length requests.now) order.now }
    ensures entries { IfOk result (λ entries. All (IsEntry snapshot.now) entries.items) }
    ensures numbers { IfOk result (λ entries. numbers_of entries.items ≡ map (λ i. number_at requests.now i) order.now) }
{
    let mut entries = Vec::with_capacity(alloc, order.len())?;
    for place in order {
        entries.push(entry_of(alloc, snapshot, starts, requests[*place].request)?)?;
    }
    Ok(entries)
}
