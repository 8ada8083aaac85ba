// Requests and groups in another state.

ghost use Rattle.std.specs.Prelude.{◌≡◌, if◌then◌else◌, IfOk, map};
ghost use Rattle.plan_base.specs.declared.state.RequestState.TheVariants.{WindowExpired, Completed, Canceled};
ghost use Rattle.plan_base.specs.States.{is_pending};
ghost use Rattle.desk_runs.specs.Numbers.{is_request};
ghost use Rattle.desk_runs.specs.Clock.{is_waiting, is_past, with_state, change_requests, with_past, with_lost};
ghost use Rattle.desk_runs.specs.Reports.{canceled, completed};

use crate::group::{Group, Request};
use crate::observation::Observation;
use plan_base::{ListOf, RequestNo, RequestState, Sec};
use std::alloc::{AllocError, Global};

/// The request, window expired where it is past.
fn expire_past(q: &Request, running: &[Observation], now: Sec) -> Request
    ensures { result ≡ (if is_past running.now now q.now then with_state WindowExpired q.now else q.now) }
{
    if q.is_past(running, now) {
        q.in_state(RequestState::WindowExpired)
    } else {
        *q
    }
}

/// The request, window expired where it is waiting.
fn expire_waiting(q: &Request, running: &[Observation]) -> Request
    ensures { result ≡ (if is_waiting running.now q.now then with_state WindowExpired q.now else q.now) }
{
    if q.is_waiting(running) {
        q.in_state(RequestState::WindowExpired)
    } else {
        *q
    }
}

/// The request, canceled where it is pending.
fn cancel_pending(q: &Request) -> Request
    ensures { result ≡ (if is_pending q.now.state then with_state Canceled q.now else q.now) }
{
    if q.state.is_pending() {
        q.in_state(RequestState::Canceled)
    } else {
        *q
    }
}

/// The request, completed where it has this number.
fn complete_one(q: &Request, number: RequestNo) -> Request
    ensures { result ≡ (if is_request number q.now then with_state Completed q.now else q.now) }
{
    if q.number.0 == number.0 {
        q.in_state(RequestState::Completed)
    } else {
        *q
    }
}

/// The group with other requests.
fn with_requests(group: &Group, requests: Vec<Request>) -> Group
    ensures { result ≡ record group.now { requests = requests.items } }
{
    Group {
        number: group.number,
        op: group.op,
        requests: ListOf::from_vec(requests),
    }
}

/// The requests, those that are past window expired.
fn with_past_expired(
    alloc: Global,
    requests: &[Request],
    running: &[Observation],
    now: Sec,
) -> Result<Vec<Request>, AllocError>
    ensures { IfOk result (λ v. v.items ≡ map (λ q. if is_past running.now now q then with_state WindowExpired q else q) requests.now) }
{
    requests
        .iter()
        .map(|q| expire_past(q, running, now))
        .collect(alloc)
}

/// The requests, those that are waiting window expired.
fn with_waiting_expired(
    alloc: Global,
    requests: &[Request],
    running: &[Observation],
) -> Result<Vec<Request>, AllocError>
    ensures { IfOk result (λ v. v.items ≡ map (λ q. if is_waiting running.now q then with_state WindowExpired q else q) requests.now) }
{
    requests
        .iter()
        .map(|q| expire_waiting(q, running))
        .collect(alloc)
}

/// The requests, those that are pending canceled.
fn with_pending_canceled(alloc: Global, requests: &[Request]) -> Result<Vec<Request>, AllocError>
    ensures { IfOk result (λ v. v.items ≡ map (λ q. if is_pending q.state then with_state Canceled q else q) requests.now) }
{
    requests.iter().map(|q| cancel_pending(q)).collect(alloc)
}

/// The requests, the one with this number completed.
fn with_completed(
    alloc: Global,
    requests: &[Request],
    number: RequestNo,
) -> Result<Vec<Request>, AllocError>
    ensures { IfOk result (λ v. v.items ≡ map (λ q. if is_request number q then with_state Completed q else q) requests.now) }
{
    requests
        .iter()
        .map(|q| complete_one(q, number))
        .collect(alloc)
}

/// The group with its past requests window expired.
pub(crate) fn with_past(
    alloc: Global,
    group: &Group,
    running: &[Observation],
    now: Sec,
) -> Result<Group, AllocError>
    ensures { IfOk result (λ g. g ≡ with_past running.now now group.now) }
{
    let requests = with_past_expired(alloc, group.requests.as_slice(), running, now)?;
    Ok(with_requests(group, requests))
}

/// The group, and where it is lost, its waiting requests window expired.
pub(crate) fn with_lost(
    alloc: Global,
    group: Group,
    running: &[Observation],
) -> Result<Group, AllocError>
    ensures { IfOk result (λ g. g ≡ with_lost running.now group) }
{
    if !group.is_lost() {
        return Ok(group);
    }
    let requests = with_waiting_expired(alloc, group.requests.as_slice(), running)?;
    Ok(with_requests(&group, requests))
}

/// The group with its pending requests canceled.
pub(crate) fn canceled(alloc: Global, group: &Group) -> Result<Group, AllocError>
    ensures { IfOk result (λ g. g ≡ canceled group.now) }
{
    let requests = with_pending_canceled(alloc, group.requests.as_slice())?;
    Ok(with_requests(group, requests))
}

/// The group with a request completed.
fn with_one_completed(alloc: Global, group: &Group, number: RequestNo) -> Result<Group, AllocError>
    ensures { IfOk result (λ g. g ≡ change_requests (is_request number) Completed group.now) }
{
    let requests = with_completed(alloc, group.requests.as_slice(), number)?;
    Ok(with_requests(group, requests))
}

/// The group with a request completed, and in a `ONEOF` the other pending members canceled.
pub(crate) fn completed(
    alloc: Global,
    group: &Group,
    number: RequestNo,
) -> Result<Group, AllocError>
    ensures { IfOk result (λ g. g ≡ completed number group.now) }
{
    let done = with_one_completed(alloc, group, number)?;
    if group.op.is_oneof() {
        return canceled(alloc, &done);
    }
    Ok(done)
}
