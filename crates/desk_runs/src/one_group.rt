// The change of one group.

ghost use Rattle.std.specs.Prelude.{◌≡◌, ◌==◌, ◌∷◌, [], not, if◌then◌else◌, IfOk, filter};
ghost use Rattle.std.specs.List.{list_any};
ghost use Rattle.plan_base.specs.States.{is_over, is_in};
ghost use Rattle.desk_runs.specs.Clock.{became};
ghost use Rattle.desk_runs.specs.Turning.{turned};
ghost use Rattle.desk_runs.specs.Reports.{completed};
ghost use Rattle.desk_runs.specs.Sound.{IsLater};

use crate::change::Change;
use crate::changing::completed;
use crate::expiry::{extend_became, extend_over, turned};
use crate::group::Group;
use crate::observation::Observation;
use crate::turn::without;
use plan_base::{ListOf, RequestNo, RequestState, Sec};
use std::alloc::{AllocError, Global};

/// The group of a reported request, completed or not, after the moment.
pub(crate) fn settled_group(
    alloc: Global,
    group: &Group,
    number: RequestNo,
    completes: bool,
    running: &[Observation],
    now: Sec,
) -> Result<Group, AllocError>
    ensures { IfOk result (λ g. g ≡ turned running.now now (if completes then completed number group.now else group.now)) }
{
    if completes {
        let done = completed(alloc, group, number)?;
        return turned(alloc, &done, running, now);
    }
    turned(alloc, group, running, now)
}

/// The requests of a group that were pending and no longer are.
pub(crate) fn over_of(
    alloc: Global,
    before: &Group,
    after: &Group,
) -> Result<Vec<RequestNo>, AllocError>
    requires { IsLater before.now after.now }
    ensures { IfOk result (λ v. v.items ≡ became is_over before.now.requests after.now.requests) }
{
    let mut requests = Vec::new(alloc);
    extend_over(
        &mut requests,
        before.requests.as_slice(),
        after.requests.as_slice(),
    )?;
    Ok(requests)
}

/// The requests of a group that were pending and now are in a state.
pub(crate) fn became_of(
    alloc: Global,
    state: RequestState,
    before: &Group,
    after: &Group,
) -> Result<Vec<RequestNo>, AllocError>
    requires { IsLater before.now after.now }
    ensures { IfOk result (λ v. v.items ≡ became (is_in state) before.now.requests after.now.requests) }
{
    let mut requests = Vec::new(alloc);
    let before = before.requests.as_slice();
    extend_became(&mut requests, state, before, after.requests.as_slice())?;
    Ok(requests)
}

/// A list of one group.
fn one(alloc: Global, group: Group) -> Result<ListOf<Group>, AllocError>
    ensures { IfOk result (λ list. list ≡ group ∷ []) }
{
    let mut groups = Vec::with_capacity(alloc, 1)?;
    groups.push(group).map_err(AllocError::from)?;
    Ok(ListOf::from_vec(groups))
}

/// The change of one group, with the observations of its requests that are over no longer kept.
pub(crate) fn change_one(
    alloc: Global,
    now: Sec,
    after: Group,
    kept: &[Observation],
    over: &[RequestNo],
    running: Vec<Observation>,
) -> Result<Change, AllocError>
    ensures { IfOk result (λ c. c ≡ record {
      now = now;
      groups = after ∷ [];
      kept = filter (λ o. not (list_any (λ r. r.0 == o.request.0) over.now)) kept.now;
      running = running.items;
    }) }
{
    let kept = without(alloc, kept, over)?;
    let groups = one(alloc, after)?;
    Ok(Change {
        now,
        groups,
        kept: ListOf::from_vec(kept),
        running: ListOf::from_vec(running),
    })
}
