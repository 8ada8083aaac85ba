// The tests of a snapshot's parts, apart from their numbers.

ghost use Rattle.std.specs.Prelude.{◌≡◌, ◌+◌, ◌≤◌, ◌<◌, nat_lt, nat_le, ◌&&◌, ◌||◌, length, map, drop, Option, find, position, IfSome};
ghost use Rattle.std.specs.List.{list_any, list_all, zip, flat_map};
ghost use Rattle.std.specs.Option.{option_map};
ghost use Rattle.plan_base.specs.Snapshot.{is_apart, sky_below, skies_rise, most_requests, has_shape, fits_after, names_quota};
ghost use Rattle.plan_base.specs.Snapshot.{first_some, span_fault, apart_fault, group_fault};
ghost use Rattle.plan_base.specs.Snapshot.{request_fault, shape_fault, telescope_fault, fade_fault, quota_fault, quota_range_fault};
ghost use Rattle.plan_base.specs.Limits.{most_quota, most_pending, most_fade};
ghost use Rattle.plan_base.specs.Rows.{rows_from};
ghost use Rattle.plan_base.specs.declared.parts.Parts.{Parts};
ghost use Rattle.plan_base.specs.Faults.{all_requests, has_empty, first_unfit, unfit_in, fault_within_limits};

use crate::fault::SnapshotFault;
use crate::greatest::{MOST_ASKED, MOST_FADE, MOST_MEMBERS, MOST_QUOTA};
use crate::number::{RequestNo, TelescopeNo};
use crate::parts::{GroupPart, Op, Parts, Sky};
use crate::rows::Row;
use crate::span::Span;

/// The first fault of parts within the limits, whose requests have these rows.
pub(crate) fn fault_within_limits(parts: &Parts, rows: &[Row]) -> Option<SnapshotFault>
    requires few { length parts.now.quotas ≤ most_pending }
    requires rows { rows.now ≡ rows_from 0 parts.now.groups }
    ensures { result ≡ fault_within_limits parts.now }
{
    span_fault(parts)
        .or_else(|| apart_fault(parts))
        .or_else(|| group_fault(parts))
        .or_else(|| request_fault(rows))
        .or_else(|| shape_fault(parts))
        .or_else(|| telescope_fault(parts))
        .or_else(|| fade_fault(parts))
        .or_else(|| quota_fault(parts))
        .or_else(|| quota_range_fault(parts))
}

fn span_fault(parts: &Parts) -> Option<SnapshotFault>
    ensures { result ≡ span_fault parts.now }
{
    if has_empty_span(parts) {
        Some(SnapshotFault::EmptySpan)
    } else {
        None
    }
}

fn has_empty_span(parts: &Parts) -> bool
    ensures { result
        ≡ (list_any (λ t. has_empty t.usable) parts.now.telescopes
        || list_any (λ y. has_empty y.spans) parts.now.skies
        || list_any (λ q. has_empty q.windows) (all_requests parts.now.groups)) }
{
    has_empty_usable(parts) || has_empty_sky(parts) || has_empty_window(parts)
}

fn has_empty_usable(parts: &Parts) -> bool
    ensures { result ≡ list_any (λ t. has_empty t.usable) parts.now.telescopes }
{
    parts
        .telescopes
        .as_slice()
        .iter()
        .any(|t| has_empty(t.usable.as_slice()))
}

fn has_empty_sky(parts: &Parts) -> bool
    ensures { result ≡ list_any (λ y. has_empty y.spans) parts.now.skies }
{
    parts
        .skies
        .as_slice()
        .iter()
        .any(|y| has_empty(y.spans.as_slice()))
}

fn has_empty_window(parts: &Parts) -> bool
    ensures { result ≡ list_any (λ q. has_empty q.windows) (all_requests parts.now.groups) }
{
    parts
        .groups
        .as_slice()
        .iter()
        .flat_map(|x| x.requests.as_slice())
        .any(|q| has_empty(q.windows.as_slice()))
}

fn has_empty(spans: &[Span]) -> bool
    ensures { result ≡ has_empty spans.now }
{
    spans.iter().any(|w| w.to.0 <= w.from.0)
}

fn apart_fault(parts: &Parts) -> Option<SnapshotFault>
    ensures { result ≡ apart_fault parts.now }
{
    let skies = parts.skies.as_slice();
    if is_usable_apart(parts) && is_each_sky_apart(skies) && skies_rise(skies) {
        None
    } else {
        Some(SnapshotFault::NotApart)
    }
}

fn is_usable_apart(parts: &Parts) -> bool
    ensures { result ≡ list_all (λ t. is_apart t.usable) parts.now.telescopes }
{
    parts
        .telescopes
        .as_slice()
        .iter()
        .all(|t| is_apart(t.usable.as_slice()))
}

fn is_each_sky_apart(skies: &[Sky]) -> bool
    ensures { result ≡ list_all (λ y. is_apart y.spans) skies.now }
{
    skies.iter().all(|y| is_apart(y.spans.as_slice()))
}

fn is_apart(spans: &[Span]) -> bool
    ensures { result ≡ is_apart spans.now }
{
    spans
        .iter()
        .zip(spans.iter().skip(1))
        .all(|(v, w)| v.to.0 < w.from.0)
}

fn skies_rise(skies: &[Sky]) -> bool
    ensures { result ≡ skies_rise skies.now }
{
    skies
        .iter()
        .zip(skies.iter().skip(1))
        .all(|(y, z)| sky_below(y, z))
}

fn sky_below(y: &Sky, z: &Sky) -> bool
    ensures { result ≡ sky_below y.now z.now }
{
    y.target.0 < z.target.0 || y.target.0 == z.target.0 && y.site.0 < z.site.0
}

fn group_fault(parts: &Parts) -> Option<SnapshotFault>
    ensures { result ≡ group_fault parts.now }
{
    let groups = parts.groups.as_slice();
    match falling_group(groups) {
        None => None,
        Some(index) => Some(SnapshotFault::GroupOrder(groups[index + 1].group)),
    }
}

fn falling_group(groups: &[GroupPart]) -> Option<usize>
    ensures place { result ≡ position (λ p. nat_le p.1.group.0 p.0.group.0) (zip groups.now (drop 1 groups.now)) }
    ensures within { IfSome result (λ i. i + 1 < length groups.now) }
{
    groups
        .iter()
        .zip(groups.iter().skip(1))
        .position(|(x, y)| y.group.0 <= x.group.0)
}

fn request_fault(rows: &[Row]) -> Option<SnapshotFault>
    ensures { (s : Parts) → rows.now ≡ rows_from 0 s.groups → result ≡ request_fault s }
{
    match falling_row(rows) {
        None => None,
        Some(index) => Some(SnapshotFault::RequestOrder(rows[index + 1].request)),
    }
}

fn falling_row(rows: &[Row]) -> Option<usize>
    ensures place { result ≡ position (λ p. nat_le p.1.request.0 p.0.request.0) (zip rows.now (drop 1 rows.now)) }
    ensures within { IfSome result (λ i. i + 1 < length rows.now) }
{
    rows.iter()
        .zip(rows.iter().skip(1))
        .position(|(x, y)| y.request.0 <= x.request.0)
}

fn shape_fault(parts: &Parts) -> Option<SnapshotFault>
    ensures { result ≡ shape_fault parts.now }
{
    parts
        .groups
        .as_slice()
        .iter()
        .find(|x| !has_shape(x))
        .map(|x| SnapshotFault::BadShape(x.group))
}

fn has_shape(group: &GroupPart) -> bool
    ensures { result ≡ has_shape group.now }
{
    1 <= group.requests.len() && group.requests.len() <= most_requests(group.op)
}

fn most_requests(op: Op) -> usize
    ensures { result ≡ most_requests op }
{
    match op {
        Op::Single => 1,
        Op::Many => MOST_MEMBERS,
        Op::OneOf | Op::And => MOST_ASKED,
    }
}

fn telescope_fault(parts: &Parts) -> Option<SnapshotFault>
    ensures { result ≡ telescope_fault parts.now }
{
    unfit_telescope(parts).map(SnapshotFault::NoSuchTelescope)
}

fn unfit_telescope(parts: &Parts) -> Option<TelescopeNo>
    ensures { result ≡ first_some (map (unfit_in (length parts.now.telescopes)) parts.now.groups) }
{
    let count = parts.telescopes.len();
    for group in parts.groups.as_slice() {
        let unfit = unfit_in(count, group);
        if unfit.is_some() {
            return unfit;
        }
    }
    None
}

fn unfit_in(count: usize, group: &GroupPart) -> Option<TelescopeNo>
    ensures { result ≡ unfit_in count group.now }
{
    for request in group.requests.as_slice() {
        let unfit = first_unfit(count, request.telescopes.as_slice());
        if unfit.is_some() {
            return unfit;
        }
    }
    None
}

fn first_unfit(count: usize, telescopes: &[TelescopeNo]) -> Option<TelescopeNo>
    ensures { result ≡ first_unfit count telescopes.now }
{
    let mut last = None;
    for telescope in telescopes {
        if !fits_after(count, last, *telescope) {
            return Some(*telescope);
        }
        last = Some(*telescope);
    }
    None
}

fn fits_after(count: usize, last: Option<TelescopeNo>, telescope: TelescopeNo) -> bool
    ensures { result ≡ fits_after count (last, telescope) }
{
    usize::from(telescope.0) < count && last.is_none_or(|l| l.0 < telescope.0)
}

fn fade_fault(parts: &Parts) -> Option<SnapshotFault>
    ensures { result ≡ fade_fault parts.now }
{
    fading_request(parts.groups.as_slice()).map(SnapshotFault::FadeRange)
}

fn fading_request(groups: &[GroupPart]) -> Option<RequestNo>
    ensures { result ≡ option_map (λ q. q.request) (find (λ q. nat_lt most_fade q.fade) (all_requests groups.now)) }
{
    groups
        .iter()
        .flat_map(|x| x.requests.as_slice())
        .find(|q| u32::from(q.fade) > MOST_FADE)
        .map(|q| q.request)
}

fn quota_fault(parts: &Parts) -> Option<SnapshotFault>
    ensures { result ≡ quota_fault parts.now }
{
    let count = parts.quotas.len();
    parts
        .groups
        .as_slice()
        .iter()
        .find(|x| !names_quota(count, x.quota))
        .map(|x| SnapshotFault::NoSuchQuota(x.group))
}

fn names_quota(count: usize, quota: Option<u16>) -> bool
    ensures { result ≡ names_quota count quota }
{
    quota.is_none_or(|q| usize::from(q) < count)
}

fn quota_range_fault(parts: &Parts) -> Option<SnapshotFault>
    requires { length parts.now.quotas ≤ most_pending }
    ensures { result ≡ quota_range_fault parts.now }
{
    match excessive_quota(parts.quotas.as_slice()) {
        None => None,
        Some(index) => Some(SnapshotFault::QuotaRange {
            index: index as u32,
        }),
    }
}

fn excessive_quota(quotas: &[u64]) -> Option<usize>
    ensures place { result ≡ position (λ q. nat_lt most_quota q) quotas.now }
    ensures within { IfSome result (λ i. i < length quotas.now) }
{
    quotas.iter().position(|q| *q > MOST_QUOTA)
}
