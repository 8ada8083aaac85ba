// What a sample has, and its snapshot.

use crate::desk::{Desk, GroupWish, Groups, TelescopeWish, Wish};
use crate::fault::SampleFault;
use plan_base::{Op, Snapshot, TelescopeNo, repeated};
use std::alloc::{AllocError, Global};

/// What each request is worth at its earliest slice.
const VALUE: u32 = 50_000;

/// From the first second of the horizon to its end: twelve slices of 300 seconds.
pub const WHOLE_HORIZON: (u64, u64) = (0, 3_600);

/// A snapshot of twelve slices of 300 seconds at one site, whose requests observe for 300 seconds each. Groups and
/// requests are numbered from 1 on.
#[derive(Clone, Copy)]
pub struct Sample<'a> {
    /// The kind of each group, and how many requests it has.
    pub groups: &'a [(Op, usize)],
    /// How many telescopes there are. Each request may be on each of them.
    pub telescopes: u16,
    /// When each telescope can be used: from this second until before that one.
    pub usable: (u64, u64),
    /// When each request may be observed: from this second until before that one.
    pub window: (u64, u64),
    /// The thousandths of its value that each request loses by a slice of delay.
    pub fade: u16,
    /// The seconds of the one quota, which all groups name, if there is one.
    pub quota: Option<u64>,
}

/// One request on one telescope, at any time.
pub const ONE: Sample = Sample {
    groups: &[(Op::Single, 1)],
    telescopes: 1,
    usable: WHOLE_HORIZON,
    window: WHOLE_HORIZON,
    fade: 0,
    quota: None,
};

/// Two requests, each in a group of its own, on one telescope, at any time.
pub const TWO: Sample = Sample {
    groups: &[(Op::Single, 1), (Op::Single, 1)],
    ..ONE
};

impl<'a> Sample<'a> {
    /// The snapshot that has this, boxed, so that no proof looks into it. The error is a number out of its range, what
    /// [`Snapshot::build`] finds, or want of memory.
    pub fn snapshot(&self, alloc: Global) -> Result<Box<Snapshot>, SampleFault> {
        let telescopes = numbers_of(alloc, self.telescopes)?;
        let windows = [self.window];
        let wish = Wish {
            seconds: 300,
            value: VALUE,
            fade: self.fade,
            windows: &windows,
            telescopes: telescopes.as_slice(),
        };
        self.snapshot_of(alloc, wish)
    }

    /// The snapshot whose requests are all of this kind.
    fn snapshot_of(&self, alloc: Global, wish: Wish) -> Result<Box<Snapshot>, SampleFault> {
        let wishes = repeated(alloc, wish, self.most_requests())?;
        let groups = self.groups_of(alloc, wishes.as_slice())?;
        self.snapshot_with(alloc, groups.as_slice())
    }

    /// The snapshot that has these groups.
    fn snapshot_with(
        &self,
        alloc: Global,
        groups: &[GroupWish],
    ) -> Result<Box<Snapshot>, SampleFault> {
        let usable = [self.usable];
        let telescope = TelescopeWish { usable: &usable };
        let wished = repeated(alloc, telescope, usize::from(self.telescopes))?;
        let quotas = self.quotas(alloc)?;
        let desk = Desk {
            len: 300,
            first: 0,
            slices: 12,
            telescopes: wished.as_slice(),
            groups: Groups::Of(groups),
            quotas: quotas.as_slice(),
        };
        desk.snapshot(alloc)
    }

    /// How many requests the greatest group has.
    fn most_requests(&self) -> usize {
        self.groups
            .iter()
            .map(|(_, count)| *count)
            .max()
            .unwrap_or(0)
    }

    /// The groups, each with the first of these requests.
    fn groups_of<'b>(
        &self,
        alloc: Global,
        wishes: &'b [Wish<'b>],
    ) -> Result<Vec<GroupWish<'b>>, AllocError> {
        let mut groups = Vec::new(alloc);
        for (op, count) in self.groups {
            groups.push(GroupWish {
                op: *op,
                quota: self.quota.map(|_| 0),
                wishes: &wishes[..wishes.len().min(*count)],
            })?;
        }
        Ok(groups)
    }

    /// The seconds of the quota, if there is one.
    fn quotas(&self, alloc: Global) -> Result<Vec<u64>, AllocError> {
        let mut quotas = Vec::new(alloc);
        if let Some(quota) = self.quota {
            quotas.push(quota)?;
        }
        Ok(quotas)
    }
}

/// The numbers of so many telescopes.
fn numbers_of(alloc: Global, count: u16) -> Result<Vec<TelescopeNo>, AllocError> {
    let mut numbers = Vec::new(alloc);
    for number in 0..count {
        numbers.push(TelescopeNo(number))?;
    }
    Ok(numbers)
}
