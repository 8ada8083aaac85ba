// The parts that snapshots are made of. What is made is boxed, so that no proof looks into it.

use crate::desk::{GroupWish, Groups, TelescopeWish, Wish};
use crate::fault::SampleFault;
use plan_base::{
    GroupNo, GroupPart, ListOf, Op, Parts, RequestNo, RequestPart, Sec, SiteNo, Snapshot, Span,
    TelescopePart,
};
use std::alloc::{AllocError, Global};

/// The snapshot of these parts, where each of their numbers is in its range.
pub(crate) fn snapshot_of(alloc: Global, parts: Box<Parts>) -> Result<Box<Snapshot>, SampleFault> {
    if !parts.is_in_ranges() {
        return Err(SampleFault::OutOfRange);
    }
    let snapshot = Snapshot::build(alloc, Box::into_inner(parts)).map_err(SampleFault::NoSnapshot)?;
    Ok(Box::new(alloc, snapshot).map_err(AllocError::from)?)
}

fn spans_of(alloc: Global, ends: &[(u64, u64)]) -> Result<Box<ListOf<Span>>, AllocError> {
    let mut spans = ListOf::new(alloc);
    for (from, to) in ends {
        spans.push(Span {
            from: Sec(*from),
            to: Sec(*to),
        })?;
    }
    Ok(Box::new(alloc, spans)?)
}

pub(crate) fn telescopes_of(
    alloc: Global,
    wished: &[TelescopeWish],
) -> Result<Box<ListOf<TelescopePart>>, AllocError> {
    let mut telescopes = ListOf::new(alloc);
    for wish in wished {
        telescopes.push(TelescopePart {
            site: SiteNo(0),
            usable: Box::into_inner(spans_of(alloc, wish.usable)?),
        })?;
    }
    Ok(Box::new(alloc, telescopes)?)
}

/// The groups, numbered from 1 on, as their requests are.
pub(crate) fn groups_of(
    alloc: Global,
    groups: Groups,
) -> Result<Box<ListOf<GroupPart>>, AllocError> {
    match groups {
        Groups::Singles(wishes) => singles_of(alloc, wishes),
        Groups::Of(groups) => groups_with(alloc, groups),
    }
}

/// The last numbers that groups and requests were given.
#[derive(Clone, Copy)]
struct Last {
    group: u32,
    request: u32,
}

const NONE_YET: Last = Last {
    group: 0,
    request: 0,
};

fn singles_of(alloc: Global, wishes: &[Wish]) -> Result<Box<ListOf<GroupPart>>, AllocError> {
    let mut groups = ListOf::new(alloc);
    let mut last = NONE_YET;
    for index in 0..wishes.len() {
        let group = GroupWish {
            op: Op::Single,
            quota: None,
            wishes: &wishes[index..=index],
        };
        groups.push(Box::into_inner(group_of(alloc, group, &mut last)?))?;
    }
    Ok(Box::new(alloc, groups)?)
}

fn groups_with(alloc: Global, wished: &[GroupWish]) -> Result<Box<ListOf<GroupPart>>, AllocError> {
    let mut groups = ListOf::new(alloc);
    let mut last = NONE_YET;
    for group in wished {
        groups.push(Box::into_inner(group_of(alloc, *group, &mut last)?))?;
    }
    Ok(Box::new(alloc, groups)?)
}

/// The group, with the numbers after the last ones.
fn group_of(
    alloc: Global,
    group: GroupWish,
    last: &mut Last,
) -> Result<Box<GroupPart>, AllocError> {
    last.group = last.group.saturating_add(1);
    let mut requests = ListOf::new(alloc);
    for wish in group.wishes {
        last.request = last.request.saturating_add(1);
        requests.push(Box::into_inner(request_of(alloc, last.request, wish)?))?;
    }
    Ok(Box::new(
        alloc,
        GroupPart {
            group: GroupNo(last.group),
            op: group.op,
            requests,
            quota: group.quota,
        },
    )?)
}

fn request_of(alloc: Global, number: u32, wish: &Wish) -> Result<Box<RequestPart>, AllocError> {
    Ok(Box::new(
        alloc,
        RequestPart {
            request: RequestNo(number),
            seconds: wish.seconds,
            value: wish.value,
            windows: Box::into_inner(spans_of(alloc, wish.windows)?),
            telescopes: ListOf::from_vec(Vec::from_slice(alloc, wish.telescopes)?),
            targets: ListOf::new(alloc),
            fade: wish.fade,
        },
    )?)
}
