// Tables of what the placements of a plan take up.

ghost use Rattle.std.specs.Prelude.{◌≡◌, ℕ, ◌+◌, ◌≤◌, ◌<◌, ◌^◌, ◌&&◌, ◌↔◌, nat_le, nat_lt, not, false};
ghost use Rattle.std.specs.Prelude.{[], length, cond, slice_index_or, slice_range, Some, IsTrue, IfOk};
ghost use Rattle.std.specs.List.{list_all};
ghost use Rattle.plan_base.specs.declared.parts.Op.TheVariants.{OneOf};
ghost use Rattle.groups.specs.Tables.{AreTables, IsInTables, HasRoom, IsLeftOut, IsTakenUp, TellsMore, towards};

use crate::footprint::Footprint;
use plan_base::{Op, Snapshot};
use std::alloc::{AllocError, Global};

/// What placements take up.
pub(crate) struct Tables {
    /// Whether each slot is occupied.
    pub occupied: Vec<bool>,
    /// Whether the request at each place is placed.
    pub placed: Vec<bool>,
    /// How many requests of each group are placed.
    pub members: Vec<u32>,
    /// The seconds that are placed of each quota.
    pub seconds: Vec<u64>,
}

impl Drop for Tables {
    fn drop(self) {
        let Self {
            occupied: _,
            placed: _,
            members: _,
            seconds: _,
        } = self;
    }
}

impl Tables {
    /// The tables of no placement. Fails only for want of memory.
    pub(crate) fn new(alloc: Global, snapshot: &Snapshot) -> Result<Tables, AllocError>
        ensures { IfOk result (λ t. AreTables snapshot.now [] t) }
    {
        let parts = snapshot.parts();
        let slots = parts.telescopes.len() * parts.slices as usize;
        Ok(Tables {
            occupied: vec![in alloc; false; slots]?,
            placed: vec![in alloc; false; snapshot.request_count()]?,
            members: vec![in alloc; 0u32; parts.groups.len()]?,
            seconds: vec![in alloc; 0u64; parts.quotas.len()]?,
        })
    }

    /// Whether nothing stands in the way of a footprint.
    pub(crate) fn has_room(&self, quotas: &[u64], footprint: &Footprint) -> bool
        requires within { IsInTables footprint.now self.now }
        requires quotas { length quotas.now ≡ length self.now.seconds.items }
        requires small { (q : ℕ) → footprint.now.quota ≡ Some q → slice_index_or self.now.seconds.items q 0 + footprint.now.seconds < 2 ^ 64 }
        ensures { IsTrue result ↔ HasRoom quotas.now footprint.now self.now }
    {
        if self.placed[footprint.place] {
            return false;
        }
        if allows_one(footprint.op) && self.members[footprint.group] > 0 {
            return false;
        }
        if !fits_quota(
            self.seconds.as_slice(),
            quotas,
            footprint.quota,
            footprint.seconds,
        ) {
            return false;
        }
        are_clear(self.occupied.as_slice(), footprint.from, footprint.to)
    }

    /// Takes a footprint up.
    pub(crate) fn take(&mut self, footprint: &Footprint)
        requires within { IsInTables footprint.now self.old }
        requires left_out { IsLeftOut footprint.now self.old }
        ensures { TellsMore footprint.now self.old self.new }
    {
        set_flags(&mut self.occupied, footprint.from, footprint.to, true);
        self.placed[footprint.place] = true;
        self.members[footprint.group] += 1;
        let seconds = self.seconds.as_mut_slice();
        add_seconds(seconds, footprint.quota, footprint.seconds);
    }

    /// Gives a footprint free that was taken up.
    pub(crate) fn release(&mut self, footprint: &Footprint)
        requires within { IsInTables footprint.now self.old }
        requires taken_up { IsTakenUp footprint.now self.old }
        ensures { TellsMore footprint.now self.new self.old }
    {
        set_flags(&mut self.occupied, footprint.from, footprint.to, false);
        self.placed[footprint.place] = false;
        self.members[footprint.group] -= 1;
        subtract_seconds(&mut self.seconds, footprint.quota, footprint.seconds);
    }
}

/// Whether at most one request of such a group may be placed.
fn allows_one(op: Op) -> bool
    ensures { IsTrue result ↔ (op ≡ OneOf) }
{
    match op {
        Op::OneOf => true,
        Op::Single | Op::Many | Op::And => false,
    }
}

/// Whether so many seconds more are within the quota, if one is named.
fn fits_quota(seconds: &[u64], quotas: &[u64], quota: Option<u16>, more: u64) -> bool
    requires within { (q : ℕ) → quota ≡ Some q → q < length seconds.now }
    requires quotas { length quotas.now ≡ length seconds.now }
    requires small { (q : ℕ) → quota ≡ Some q → slice_index_or seconds.now q 0 + more < 2 ^ 64 }
    ensures { IsTrue result ↔ ((q : ℕ) → quota ≡ Some q → slice_index_or seconds.now q 0 + more ≤ slice_index_or quotas.now q 0) }
{
    match quota {
        Some(quota) => seconds[usize::from(quota)] + more <= quotas[usize::from(quota)],
        None => true,
    }
}

/// Whether no flag from one place up to the one before another is set.
fn are_clear(flags: &[bool], from: usize, to: usize) -> bool
    requires order { from ≤ to }
    requires within { to ≤ length flags.now }
    ensures { result ≡ list_all not (slice_range flags.now from to) }
{
    flags[from..to].iter().all(|flag| !*flag)
}

/// Writes the flags from one place up to the one before another.
fn set_flags(flags: &mut Vec<bool>, from: usize, to: usize, value: bool)
    requires order { from ≤ to }
    requires within { to ≤ length flags.old.items }
    ensures count { length flags.new.items ≡ length flags.old.items }
    ensures set { (i : ℕ) → slice_index_or flags.new.items i false ≡ cond (nat_le from i && nat_lt i to) value (slice_index_or flags.old.items i false) }
{
    for place in from..to {
        flags[place] = value;
    }
}

/// Adds more seconds to those of the quota that is named, if one is. There is a number for that quota, and the sum is
/// below 2^64.
pub fn add_seconds(seconds: &mut [u64], quota: Option<u16>, more: u64)
    requires within { (q : ℕ) → quota ≡ Some q → q < length seconds.old }
    requires small { (q : ℕ) → quota ≡ Some q → slice_index_or seconds.old q 0 + more < 2 ^ 64 }
    ensures count { length seconds.new ≡ length seconds.old }
    ensures added { (q : ℕ) → slice_index_or seconds.new q 0 ≡ slice_index_or seconds.old q 0 + towards quota more q }
{
    if let Some(quota) = quota {
        seconds[usize::from(quota)] += more;
    }
}

fn subtract_seconds(seconds: &mut Vec<u64>, quota: Option<u16>, less: u64)
    requires within { (q : ℕ) → quota ≡ Some q → q < length seconds.old.items }
    requires enough { (q : ℕ) → quota ≡ Some q → less ≤ slice_index_or seconds.old.items q 0 }
    ensures count { length seconds.new.items ≡ length seconds.old.items }
    ensures subtracted { (q : ℕ) → slice_index_or seconds.old.items q 0 ≡ slice_index_or seconds.new.items q 0 + towards quota less q }
{
    if let Some(quota) = quota {
        seconds[usize::from(quota)] -= less;
    }
}
