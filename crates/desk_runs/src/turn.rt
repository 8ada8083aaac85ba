// Observations that begin and end.

ghost use Rattle.std.specs.Prelude.{◌≡◌, ◌++◌, IfOk, filter, map, not, ◌==◌};
ghost use Rattle.std.specs.List.{list_any};
ghost use Rattle.desk_runs.specs.Clock.{has_begun, has_ended, numbers_in, requests_in};

use crate::observation::Observation;
use plan_base::{ListOf, RequestNo, Sec};
use std::alloc::{AllocError, Global};
use std::collections::BTreeSet;

/// The observations that have begun.
pub(crate) fn begun(
    alloc: Global,
    observations: &[Observation],
    len: u32,
    now: Sec,
) -> Result<Vec<Observation>, AllocError>
    ensures { IfOk result (λ v. v.items ≡ filter (has_begun len now) observations.now) }
{
    observations
        .iter()
        .copied()
        .filter(|o| o.has_begun(len, now))
        .collect(alloc)
}

/// The observations that haven't begun.
pub(crate) fn not_begun(
    alloc: Global,
    observations: &[Observation],
    len: u32,
    now: Sec,
) -> Result<Vec<Observation>, AllocError>
    ensures { IfOk result (λ v. v.items ≡ filter (λ o. not (has_begun len now o)) observations.now) }
{
    observations
        .iter()
        .copied()
        .filter(|o| !o.has_begun(len, now))
        .collect(alloc)
}

/// The observations that have ended.
pub(crate) fn ended(
    alloc: Global,
    observations: &[Observation],
    len: u32,
    now: Sec,
) -> Result<Vec<Observation>, AllocError>
    ensures { IfOk result (λ v. v.items ≡ filter (has_ended len now) observations.now) }
{
    observations
        .iter()
        .copied()
        .filter(|o| o.has_ended(len, now))
        .collect(alloc)
}

/// The observations that haven't ended.
pub(crate) fn not_ended(
    alloc: Global,
    observations: &[Observation],
    len: u32,
    now: Sec,
) -> Result<Vec<Observation>, AllocError>
    ensures { IfOk result (λ v. v.items ≡ filter (λ o. not (has_ended len now o)) observations.now) }
{
    observations
        .iter()
        .copied()
        .filter(|o| !o.has_ended(len, now))
        .collect(alloc)
}

/// Whether a request is among those.
fn is_among(requests: &[RequestNo], number: RequestNo) -> bool
    ensures { result ≡ list_any (λ r. r.0 == number.0) requests.now }
{
    requests.iter().any(|r| r.0 == number.0)
}

/// The observations of other requests than those.
pub(crate) fn without(
    alloc: Global,
    observations: &[Observation],
    requests: &[RequestNo],
) -> Result<Vec<Observation>, AllocError>
    ensures { IfOk result (λ v. v.items ≡ filter (λ o. not (list_any (λ r. r.0 == o.request.0) requests.now)) observations.now) }
{
    observations
        .iter()
        .copied()
        .filter(|o| !is_among(requests, o.request))
        .collect(alloc)
}

/// The observations of other requests than this one.
pub(crate) fn without_one(
    alloc: Global,
    observations: &[Observation],
    number: RequestNo,
) -> Result<Vec<Observation>, AllocError>
    ensures { IfOk result (λ v. v.items ≡ filter (λ o. not (o.request.0 == number.0)) observations.now) }
{
    observations
        .iter()
        .copied()
        .filter(|o| o.request.0 != number.0)
        .collect(alloc)
}

/// The numbers of the requests of observations.
#[tactic(auto, using(std::proofs::lemmas::List::Sums::fold_more))]
fn numbers_in(alloc: Global, observations: &[Observation]) -> Result<BTreeSet<u32>, AllocError>
    ensures { IfOk result (λ numbers. numbers.keys ≡ numbers_in observations.now) }
{
    let mut numbers = BTreeSet::new(alloc);
    for observation in observations {
        numbers.insert(observation.request.0)?;
    }
    Ok(numbers)
}

/// The requests with these numbers.
fn listed(alloc: Global, numbers: &BTreeSet<u32>) -> Result<Vec<RequestNo>, AllocError>
    ensures { IfOk result (λ v. v.items ≡ map (λ n. record { 0 = n }) numbers.now.keys) }
{
    numbers.iter().map(|n| RequestNo(*n)).collect(alloc)
}

/// The requests of observations, in rising order.
pub(crate) fn requests_in(
    alloc: Global,
    observations: &[Observation],
) -> Result<ListOf<RequestNo>, AllocError>
    ensures { IfOk result (λ requests. requests ≡ requests_in observations.now) }
{
    let numbers = numbers_in(alloc, observations)?;
    let requests = listed(alloc, &numbers)?;
    Ok(ListOf::from_vec(requests))
}

/// Kept observations of which some have begun.
#[derive(Drop)]
pub(crate) struct Started {
    /// Those that haven't begun.
    pub kept: Vec<Observation>,
    /// Those that run, the ones that began last at the end.
    pub running: Vec<Observation>,
    /// The requests of those that began, in rising order.
    pub requests: ListOf<RequestNo>,
}

/// The running observations, and after them those that begin.
fn joined(
    alloc: Global,
    running: &[Observation],
    beginning: &[Observation],
) -> Result<Vec<Observation>, AllocError>
    ensures { IfOk result (λ v. v.items ≡ running.now ++ beginning.now) }
{
    let mut all = Vec::from_slice(alloc, running)?;
    all.extend_from_slice(beginning)?;
    Ok(all)
}

/// The observations that are kept and those that run, once those that have begun run.
pub(crate) fn start(
    alloc: Global,
    kept: &[Observation],
    running: &[Observation],
    len: u32,
    now: Sec,
) -> Result<Started, AllocError>
    ensures kept { IfOk result (λ s. s.kept.items ≡ filter (λ o. not (has_begun len now o)) kept.now) }
    ensures running { IfOk result (λ s. s.running.items ≡ running.now ++ filter (has_begun len now) kept.now) }
    ensures requests { IfOk result (λ s. s.requests ≡ requests_in (filter (has_begun len now) kept.now)) }
{
    let beginning = begun(alloc, kept, len, now)?;
    let kept = not_begun(alloc, kept, len, now)?;
    let running = joined(alloc, running, beginning.as_slice())?;
    let requests = requests_in(alloc, beginning.as_slice())?;
    Ok(Started {
        kept,
        running,
        requests,
    })
}

/// Running observations of which some have stopped.
#[derive(Drop)]
pub(crate) struct Stopped {
    /// Those that still run.
    pub running: Vec<Observation>,
    /// The requests of those that stopped, in rising order.
    pub requests: ListOf<RequestNo>,
}

/// The observations that run, once those that have ended have stopped.
pub(crate) fn stop(
    alloc: Global,
    running: &[Observation],
    len: u32,
    now: Sec,
) -> Result<Stopped, AllocError>
    ensures running { IfOk result (λ s. s.running.items ≡ filter (λ o. not (has_ended len now o)) running.now) }
    ensures requests { IfOk result (λ s. s.requests ≡ requests_in (filter (has_ended len now) running.now)) }
{
    let ending = ended(alloc, running, len, now)?;
    let requests = requests_in(alloc, ending.as_slice())?;
    let running = not_ended(alloc, running, len, now)?;
    Ok(Stopped { running, requests })
}
