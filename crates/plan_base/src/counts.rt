// Whether a snapshot's parts are more than the limits allow.

ghost use Rattle.std.specs.Prelude.{◌≡◌, [], ◌∷◌, length, sum_by, IfSome, IfOk};
ghost use Rattle.plan_base.specs.Snapshot.{limit_of, limit_fault};
ghost use Rattle.plan_base.specs.Requests.{listed};
ghost use Rattle.plan_base.specs.Faults.{all_requests, first_over, site_limit_fault, request_limit_fault};

use crate::fault::{Counted, SnapshotFault};
use crate::greatest::{
    MOST_CONFIGURATIONS, MOST_PENDING, MOST_TELESCOPES, MOST_VISIBILITY, MOST_WINDOWS,
};
use crate::parts::{GroupPart, Parts, Sky, TelescopePart};
use std::alloc::AllocError;

/// The first count above its limit. An error means that the spans or requests are more than memory holds.
#[tactic(auto, using(crate::proofs::FaultLemmas::limits_joined))]
pub(crate) fn limit_fault(parts: &Parts) -> Result<Option<SnapshotFault>, AllocError>
    ensures { IfOk result (λ fault. fault ≡ limit_fault parts.now) }
{
    let spans = sky_spans(parts.skies.as_slice()).ok_or(AllocError)?;
    let requests = request_count(parts).ok_or(AllocError)?;
    Ok(site_limit_fault(parts, spans).or_else(|| request_limit_fault(parts, requests)))
}

fn site_limit_fault(parts: &Parts, spans: u64) -> Option<SnapshotFault>
    requires { spans ≡ sum_by (λ y. length y.spans) parts.now.skies }
    ensures { result ≡ site_limit_fault parts.now }
{
    let telescopes = parts.telescopes.as_slice();
    count_fault(Counted::Telescopes, telescopes.len() as u64)
        .or_else(|| usable_fault(telescopes))
        .or_else(|| count_fault(Counted::Skies, parts.skies.len() as u64))
        .or_else(|| count_fault(Counted::Spans, spans))
}

fn request_limit_fault(parts: &Parts, requests: u64) -> Option<SnapshotFault>
    requires { requests ≡ length (listed parts.now) }
    ensures { result ≡ request_limit_fault parts.now }
{
    let groups = parts.groups.as_slice();
    count_fault(Counted::Groups, groups.len() as u64)
        .or_else(|| count_fault(Counted::Requests, requests))
        .or_else(|| windows_fault(groups))
        .or_else(|| targets_fault(groups))
        .or_else(|| fits_fault(groups))
        .or_else(|| count_fault(Counted::Quotas, parts.quotas.len() as u64))
}

fn limit_of(what: Counted) -> u64
    ensures { result ≡ limit_of what }
{
    match what {
        Counted::Telescopes | Counted::Fits => MOST_TELESCOPES as u64,
        Counted::Windows => u64::from(MOST_WINDOWS),
        Counted::Usable => 2_048,
        Counted::Skies => 32_768,
        Counted::Spans => MOST_VISIBILITY as u64,
        Counted::Groups | Counted::Requests | Counted::Quotas => MOST_PENDING as u64,
        Counted::Targets => u64::from(MOST_CONFIGURATIONS),
    }
}

fn count_fault(what: Counted, count: u64) -> Option<SnapshotFault>
    ensures { result ≡ first_over what (λ n. n) (count ∷ []) }
{
    if count > limit_of(what) {
        Some(SnapshotFault::OverLimit { what, count })
    } else {
        None
    }
}

fn usable_fault(telescopes: &[TelescopePart]) -> Option<SnapshotFault>
    ensures { result ≡ first_over Counted.Usable (λ t. length t.usable) telescopes.now }
{
    telescopes
        .iter()
        .find(|t| t.usable.len() as u64 > limit_of(Counted::Usable))
        .map(|t| SnapshotFault::OverLimit {
            what: Counted::Usable,
            count: t.usable.len() as u64,
        })
}

fn windows_fault(groups: &[GroupPart]) -> Option<SnapshotFault>
    ensures { result ≡ first_over Counted.Windows (λ q. length q.windows) (all_requests groups.now) }
{
    groups
        .iter()
        .flat_map(|x| x.requests.as_slice())
        .find(|q| q.windows.len() as u64 > limit_of(Counted::Windows))
        .map(|q| SnapshotFault::OverLimit {
            what: Counted::Windows,
            count: q.windows.len() as u64,
        })
}

fn targets_fault(groups: &[GroupPart]) -> Option<SnapshotFault>
    ensures { result ≡ first_over Counted.Targets (λ q. length q.targets) (all_requests groups.now) }
{
    groups
        .iter()
        .flat_map(|x| x.requests.as_slice())
        .find(|q| q.targets.len() as u64 > limit_of(Counted::Targets))
        .map(|q| SnapshotFault::OverLimit {
            what: Counted::Targets,
            count: q.targets.len() as u64,
        })
}

fn fits_fault(groups: &[GroupPart]) -> Option<SnapshotFault>
    ensures { result ≡ first_over Counted.Fits (λ q. length q.telescopes) (all_requests groups.now) }
{
    groups
        .iter()
        .flat_map(|x| x.requests.as_slice())
        .find(|q| q.telescopes.len() as u64 > limit_of(Counted::Fits))
        .map(|q| SnapshotFault::OverLimit {
            what: Counted::Fits,
            count: q.telescopes.len() as u64,
        })
}

fn sky_spans(skies: &[Sky]) -> Option<u64>
    ensures { IfSome result (λ n. n ≡ sum_by (λ y. length y.spans) skies.now) }
{
    skies
        .iter()
        .try_fold(0u64, |sum, sky| sum.checked_add(sky.spans.len() as u64))
}

fn request_count(parts: &Parts) -> Option<u64>
    ensures { IfSome result (λ n. n ≡ length (listed parts.now)) }
{
    parts
        .groups
        .as_slice()
        .iter()
        .try_fold(0u64, |sum, x| sum.checked_add(x.requests.len() as u64))
}
