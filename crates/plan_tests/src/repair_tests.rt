// Plans of small desks, worked out by hand.

use plan_base::{Op, Placement, Snapshot, TelescopeNo};
use samples::{Desk, GroupWish, Groups, SampleFault, TelescopeWish, WHOLE_HORIZON, Wish};
use std::alloc::{AllocError, Global};

mod greedy;
mod repairs;

/// A telescope that can be used in the whole horizon.
const DISH: TelescopeWish = TelescopeWish {
    usable: &[WHOLE_HORIZON],
};

/// A request of one slice on telescope 0, at any time.
const WISH: Wish = Wish {
    seconds: 300,
    value: 50_000,
    fade: 0,
    windows: &[WHOLE_HORIZON],
    telescopes: &[TelescopeNo(0)],
};

/// Telescopes 0 and 1.
const BOTH: &[TelescopeNo] = &[TelescopeNo(0), TelescopeNo(1)];

/// A group of this kind that names no quota.
fn group_of<'a>(op: Op, wishes: &'a [Wish<'a>]) -> GroupWish<'a> {
    GroupWish {
        op,
        quota: None,
        wishes,
    }
}

/// A group of one request that names the first quota.
fn counted<'a>(wishes: &'a [Wish<'a>]) -> GroupWish<'a> {
    GroupWish {
        op: Op::Single,
        quota: Some(0),
        wishes,
    }
}

/// The snapshot of these groups: twelve slices of 300 seconds on these telescopes, and quotas of so many seconds.
fn snapshot_of(
    alloc: Global,
    telescopes: &[TelescopeWish],
    groups: &[GroupWish],
    quotas: &[u64],
) -> Result<Box<Snapshot>, SampleFault> {
    let desk = Desk {
        len: 300,
        first: 0,
        slices: 12,
        telescopes,
        groups: Groups::Of(groups),
        quotas,
    };
    desk.snapshot(alloc)
}

/// The placements as request, telescope and slice.
fn listed(alloc: Global, plan: &[Placement]) -> Result<Vec<(u32, u16, u32)>, AllocError> {
    let mut list = Vec::new(alloc);
    for placement in plan {
        list.push((
            placement.request.0,
            placement.telescope.0,
            placement.slice.0,
        ))?;
    }
    Ok(list)
}
