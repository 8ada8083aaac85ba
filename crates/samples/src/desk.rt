// What a small desk has, and its snapshot. Spans are pairs: from the first second until before the second one.

use crate::fault::SampleFault;
use crate::make::{groups_of, snapshot_of, telescopes_of};
use plan_base::{ListOf, Op, Parts, SliceNo, Snapshot, TelescopeNo};
use std::alloc::{AllocError, Global};

/// A telescope, at site 0.
#[derive(Clone, Copy)]
pub struct TelescopeWish<'a> {
    /// The seconds in which it can be used: spans, sorted with gaps between them.
    pub usable: &'a [(u64, u64)],
}

/// A request that is wished for, of no target.
#[derive(Clone, Copy)]
pub struct Wish<'a> {
    /// How many seconds it takes.
    pub seconds: u32,
    /// What it is worth at its earliest slice.
    pub value: u32,
    /// The thousandths of its value that it loses by a slice of delay.
    pub fade: u16,
    /// The spans of seconds of which one has to have all of its seconds.
    pub windows: &'a [(u64, u64)],
    /// The telescopes that can take it, in rising order.
    pub telescopes: &'a [TelescopeNo],
}

/// A group that is wished for.
#[derive(Clone, Copy)]
pub struct GroupWish<'a> {
    /// Its kind.
    pub op: Op,
    /// The place of the quota that it names, if it names one.
    pub quota: Option<u16>,
    /// Its requests.
    pub wishes: &'a [Wish<'a>],
}

/// The groups of a desk. Groups and requests are numbered from 1 on.
#[derive(Clone, Copy)]
pub enum Groups<'a> {
    /// A group of its own for each request.
    Singles(&'a [Wish<'a>]),
    /// Groups of any kind.
    Of(&'a [GroupWish<'a>]),
}

/// A horizon, what can observe in it, and what is wished for.
#[derive(Clone, Copy)]
pub struct Desk<'a> {
    /// How many seconds a slice has.
    pub len: u32,
    /// The first slice of the horizon.
    pub first: u32,
    /// How many slices the horizon has.
    pub slices: u32,
    /// The telescopes, numbered from 0 on.
    pub telescopes: &'a [TelescopeWish<'a>],
    /// The groups with their requests.
    pub groups: Groups<'a>,
    /// The seconds of each quota.
    pub quotas: &'a [u64],
}

impl<'a> Desk<'a> {
    /// The snapshot of the desk, boxed, so that no proof looks into it. The error is a number out of its range, what
    /// [`Snapshot::build`] finds, or want of memory.
    pub fn snapshot(&self, alloc: Global) -> Result<Box<Snapshot>, SampleFault> {
        snapshot_of(alloc, parts_of(alloc, self)?)
    }
}

fn parts_of(alloc: Global, desk: &Desk) -> Result<Box<Parts>, AllocError> {
    Ok(Box::new(
        alloc,
        Parts {
            version: 0,
            len: desk.len,
            first: SliceNo(desk.first),
            slices: desk.slices,
            telescopes: Box::into_inner(telescopes_of(alloc, desk.telescopes)?),
            skies: ListOf::new(alloc),
            groups: Box::into_inner(groups_of(alloc, desk.groups)?),
            quotas: ListOf::from_vec(Vec::from_slice(alloc, desk.quotas)?),
        },
    )?)
}
