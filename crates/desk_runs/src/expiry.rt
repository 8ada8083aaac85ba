// Requests whose windows have passed, in the groups that are open.

ghost use Rattle.std.specs.Prelude.{◌≡◌, ◌≤◌, ◌++◌, ◌∷◌, [], ◌&&◌, if◌then◌else◌, IfOk, OnOk, All, length, map, filter};
ghost use Rattle.std.specs.List.{flat_map, list_any};
ghost use Rattle.plan_base.specs.States.{is_pending, is_in, is_over};
ghost use Rattle.desk_runs.specs.Clock.{became, is_past, is_waiting};
ghost use Rattle.desk_runs.specs.Turning.{turned, is_touched, groups_of};

use crate::by_number::group_of;
use crate::changing::{with_lost, with_past};
use crate::group::{Group, Request};
use crate::observation::Observation;
use plan_base::{GroupNo, RequestNo, RequestState, Sec};
use std::alloc::{AllocError, Global};

/// Groups of which requests became window expired, as they then are, and these requests.
#[derive(Drop)]
pub(crate) struct Expiry {
    /// The groups, by rising numbers.
    pub groups: Vec<Group>,
    /// The requests, in rising order.
    pub requests: Vec<RequestNo>,
}

/// The group after a moment, with its past requests window expired, and where it then is lost, its waiting ones too.
pub(crate) fn turned(
    alloc: Global,
    group: &Group,
    running: &[Observation],
    now: Sec,
) -> Result<Group, AllocError>
    ensures { IfOk result (λ g. g ≡ turned running.now now group.now) }
{
    let past = with_past(alloc, group, running, now)?;
    with_lost(alloc, past, running)
}

/// Whether a moment may change a group.
fn is_touched(group: &Group, running: &[Observation], now: Sec) -> bool
    ensures { result ≡ is_touched running.now now group.now }
{
    has_past(group, running, now) || (group.is_lost() && has_waiting(group, running))
}

/// Whether a request of the group is past.
fn has_past(group: &Group, running: &[Observation], now: Sec) -> bool
    ensures { result ≡ list_any (is_past running.now now) group.now.requests }
{
    group
        .requests
        .as_slice()
        .iter()
        .any(|q| q.is_past(running, now))
}

/// Whether a request of the group is waiting.
fn has_waiting(group: &Group, running: &[Observation]) -> bool
    ensures { result ≡ list_any (is_waiting running.now) group.now.requests }
{
    group
        .requests
        .as_slice()
        .iter()
        .any(|q| q.is_waiting(running))
}

/// Adds a request that was pending, where it now is in the state.
fn push_became(
    requests: &mut Vec<RequestNo>,
    state: RequestState,
    before: Request,
    after: Request,
) -> Result<(), AllocError>
    ensures { OnOk result (requests.new.items ≡ requests.old.items ++ (if is_pending before.state && is_in state after.state then after.number ∷ [] else [])) }
{
    if before.state.is_pending() && after.state.is(state) {
        requests.push(after.number)?;
    }
    Ok(())
}

/// Adds the requests that were pending and now are in the state.
pub(crate) fn extend_became(
    requests: &mut Vec<RequestNo>,
    state: RequestState,
    before: &[Request],
    after: &[Request],
) -> Result<(), AllocError>
    requires { length before.now ≡ length after.now }
    ensures { OnOk result (requests.new.items ≡ requests.old.items ++ became (is_in state) before.now after.now) }
{
    for (i, request) in before.iter().enumerate() {
        push_became(requests, state, *request, after[i])?;
    }
    Ok(())
}

/// Adds a request that was pending, where it no longer is.
fn push_over(
    requests: &mut Vec<RequestNo>,
    before: Request,
    after: Request,
) -> Result<(), AllocError>
    ensures { OnOk result (requests.new.items ≡ requests.old.items ++ (if is_pending before.state && is_over after.state then after.number ∷ [] else [])) }
{
    if before.state.is_pending() && !after.state.is_pending() {
        requests.push(after.number)?;
    }
    Ok(())
}

/// Adds the requests that were pending and no longer are.
pub(crate) fn extend_over(
    requests: &mut Vec<RequestNo>,
    before: &[Request],
    after: &[Request],
) -> Result<(), AllocError>
    requires { length before.now ≡ length after.now }
    ensures { OnOk result (requests.new.items ≡ requests.old.items ++ became is_over before.now after.now) }
{
    for (i, request) in before.iter().enumerate() {
        push_over(requests, *request, after[i])?;
    }
    Ok(())
}

/// Adds what a moment does to a group.
fn turn_group(
    alloc: Global,
    expiry: &mut Expiry,
    group: &Group,
    running: &[Observation],
    now: Sec,
) -> Result<(), AllocError>
    ensures groups { OnOk result (expiry.new.groups.items ≡ expiry.old.groups.items
        ++ (if is_touched running.now now group.now then turned running.now now group.now ∷ [] else [])) }
    ensures requests { OnOk result (expiry.new.requests.items ≡ expiry.old.requests.items
        ++ became is_over group.now.requests (turned running.now now group.now).requests) }
{
    if !is_touched(group, running, now) {
        return Ok(());
    }
    let after = turned(alloc, group, running, now)?;
    extend_over(
        &mut expiry.requests,
        group.requests.as_slice(),
        after.requests.as_slice(),
    )?;
    expiry.groups.push(after)?;
    Ok(())
}

/// What a moment does to the groups with these numbers.
pub(crate) fn expire(
    alloc: Global,
    groups: &[Group],
    opened: &[GroupNo],
    running: &[Observation],
    now: Sec,
) -> Result<Expiry, AllocError>
    requires { All (λ n. (1 ≤ n.0) × (n.0 ≤ length groups.now)) opened.now }
    ensures groups { IfOk result (λ e. e.groups.items ≡ map (turned running.now now) (filter (is_touched running.now now) (groups_of groups.now opened.now))) }
    ensures requests { IfOk result (λ e. e.requests.items
        ≡ flat_map (λ g. became is_over g.requests (turned running.now now g).requests) (groups_of groups.now opened.now)) }
{
    let mut expiry = Expiry {
        groups: Vec::new(alloc),
        requests: Vec::new(alloc),
    };
    for number in opened {
        let group = group_of(groups, *number);
        turn_group(alloc, &mut expiry, group, running, now)?;
    }
    Ok(expiry)
}
