// What a snapshot holds: the telescopes, skies and groups of one desk at one version.

ghost use Rattle.std.specs.Prelude.{◌≡◌};
ghost use Rattle.plan_base.specs.Operators.{is_single, is_oneof, is_and};

use crate::list::ListOf;
use crate::number::{GroupNo, RequestNo, SiteNo, SliceNo, TargetNo, TelescopeNo};
use crate::span::Span;
use std::alloc::AllocError;

/// How the requests of a group belong together.
#[derive(Clone, Copy, Debug, PartialEq, Eq)]
pub enum Op {
    /// One request.
    Single,
    /// Any of the requests may be placed.
    Many,
    /// At most one of the requests may be placed.
    OneOf,
    /// All of the requests are placed, or none.
    And,
}

impl Op {
    /// Whether a group is a `SINGLE`.
    pub fn is_single(self) -> bool
        ensures { result ≡ is_single self }
    {
        match self {
            Op::Single => true,
            Op::Many | Op::OneOf | Op::And => false,
        }
    }

    /// Whether a group is a `ONEOF`.
    pub fn is_oneof(self) -> bool
        ensures { result ≡ is_oneof self }
    {
        match self {
            Op::OneOf => true,
            Op::Single | Op::Many | Op::And => false,
        }
    }

    /// Whether a group is an `AND`.
    pub fn is_and(self) -> bool
        ensures { result ≡ is_and self }
    {
        match self {
            Op::And => true,
            Op::Single | Op::Many | Op::OneOf => false,
        }
    }
}

/// A telescope; its number is its place in the snapshot's list.
#[derive(Clone, PartialEq, Eq)]
pub struct TelescopePart {
    /// Where it stands, by its number of the desk.
    pub site: SiteNo,
    /// When it can observe, sorted with gaps between the spans.
    pub usable: ListOf<Span>,
}

impl Drop for TelescopePart {
    fn drop(self) {
        let Self { site: _, usable: _ } = self;
    }
}

/// When a target can be observed from a site.
#[derive(Clone, PartialEq, Eq)]
pub struct Sky {
    /// What is observed, by its number of the desk.
    pub target: TargetNo,
    /// From where, by its number of the desk.
    pub site: SiteNo,
    /// Sorted, with gaps between them.
    pub spans: ListOf<Span>,
}

impl Drop for Sky {
    fn drop(self) {
        let Self {
            target: _,
            site: _,
            spans: _,
        } = self;
    }
}

/// An observation that is asked for.
#[derive(Clone, PartialEq, Eq)]
pub struct RequestPart {
    /// Its number of the desk; numbers rise through all groups of the snapshot.
    pub request: RequestNo,
    /// How long it takes, 1 to 86,400 seconds.
    pub seconds: u32,
    /// What it is worth at its earliest slice, 1 to 288,000,000. Of a desk's request these are thousandths of a minute at
    /// priority 1 and neutral ipp.
    pub value: u32,
    /// It lies inside one of these.
    pub windows: ListOf<Span>,
    /// The telescopes that can take it, in rising order.
    pub telescopes: ListOf<TelescopeNo>,
    /// All of these have to be visible while it is taken.
    pub targets: ListOf<TargetNo>,
    /// The thousandths of the value, 0 to 1,000, that are lost with each slice of delay after the earliest slice.
    pub fade: u16,
}

impl Drop for RequestPart {
    fn drop(self) {
        let Self {
            request: _,
            seconds: _,
            value: _,
            windows: _,
            telescopes: _,
            targets: _,
            fade: _,
        } = self;
    }
}

/// A request group.
#[derive(PartialEq, Eq)]
pub struct GroupPart {
    /// Its number of the desk; numbers rise through the snapshot's list.
    pub group: GroupNo,
    /// Which of its requests may be placed together.
    pub op: Op,
    /// Those that may still be placed: 1 in a `SINGLE`, 1 to 256 in a `MANY`, 1 to 32 in the others.
    pub requests: ListOf<RequestPart>,
    /// The place in the snapshot's list of quotas of the one that the group counts towards, if there is one.
    pub quota: Option<u16>,
}

impl Drop for GroupPart {
    fn drop(self) {
        let Self {
            group: _,
            op: _,
            requests: _,
            quota: _,
        } = self;
    }
}

// By hand, since a derived one says too little for a list of groups to be known as equal.
impl Clone for GroupPart {
    ghost is_clone = { λ x y. y ≡ x };

    fn clone(&self) -> Result<GroupPart, AllocError> {
        Ok(GroupPart {
            group: self.group,
            op: self.op,
            requests: self.requests.clone()?,
            quota: self.quota,
        })
    }
}

/// The parts of a snapshot. Requests are counted through the list of groups.
#[derive(Clone, PartialEq, Eq)]
pub struct Parts {
    /// How many changes the desk had accepted, 0 to 524,288.
    pub version: u64,
    /// How long a slice is, 60 to 3,600 seconds.
    pub len: u32,
    /// The first slice of the horizon, 0 to 4,223,371,680.
    pub first: SliceNo,
    /// How many slices the horizon has, 1 to 1,440.
    pub slices: u32,
    /// At most 32; a telescope's number is its place.
    pub telescopes: ListOf<TelescopePart>,
    /// In rising order of target, then site.
    pub skies: ListOf<Sky>,
    /// In rising order of group and of request.
    pub groups: ListOf<GroupPart>,
    /// The most seconds, 0 to 100,000,000, that a plan may place of the groups that name each quota.
    pub quotas: ListOf<u64>,
}

impl Drop for Parts {
    fn drop(self) {
        let Self {
            version: _,
            len: _,
            first: _,
            slices: _,
            telescopes: _,
            skies: _,
            groups: _,
            quotas: _,
        } = self;
    }
}
