// A plan that is being built, with a mark at each slot that it occupies.

ghost use Rattle.std.specs.Prelude.{◌≡◌, ◌-◌, ◌≤◌, ◌<◌, ◌↔◌, [], ◌∷◌, ◌++◌, length, take, Contains, HoldsAt, IsTrue, IfOk, MatchOption};
ghost use Rattle.plan_base.specs.Limits.{most_pending};
ghost use Rattle.plan_base.specs.Snapshot.{IsOrderly};
ghost use Rattle.plan_base.specs.Starts.{IsPossibleStart, size_of};
ghost use Rattle.plan_base.specs.Feasible.{requests_of};
ghost use Rattle.plan_base.specs.FeasibleSoFar.{IsFeasibleSoFar};
ghost use Rattle.plan_base.specs.Saturated.{HasNonePlaced};
ghost use Rattle.repair.specs.Apart.{IsPossibleRun, HasNoApart, IsFirstApart};

use crate::marks::{clear_marks, first_clear, write_marks};
use groups::{PlanBuild, Slots};
use plan_base::{Placement, RequestNo, SliceNo, Snapshot};
use snapshot_starts::Run;
use std::alloc::{AllocError, Global};
use std::marker::Model;

/// A plan for a snapshot that is being built. Contracts see the snapshot's parts and the placements in their order.
pub(crate) struct Draft<'a> {
    snapshot: &'a Snapshot,
    build: PlanBuild<'a>,
    /// Slot `t * slices + i` is slice `i` of the horizon on telescope `t`.
    marks: Vec<u16>,
}

impl Drop for Draft<'_> {
    fn drop(self) {
        let Self {
            snapshot: _,
            build: _,
            marks: _,
        } = self;
    }
}

impl<'a> Model for Draft<'a> {
    ghost use Rattle.groups.specs.Building.{Building};

    ghost Value = { Building };

    ghost use Rattle.repair.specs.Drafts.{IsDraft};

    ghost view = { λ a. a.build };

    ghost invariant = { λ a. IsDraft a.snapshot.now a.build a.marks.items };
}

impl<'a> Draft<'a> {
    /// The plan that places nothing. It takes all memory that it will need. Fails only for want of memory.
    pub(crate) fn new(alloc: Global, snapshot: &'a Snapshot) -> Result<Draft<'a>, AllocError>
        ensures { IfOk result (λ draft. draft ≡ record { snapshot = snapshot.now; placed = [] }) }
    {
        let parts = snapshot.parts();
        let slots = parts.telescopes.len() * parts.slices as usize;
        Ok(Draft {
            snapshot,
            build: PlanBuild::new(alloc, snapshot)?,
            marks: vec![in alloc; 0u16; slots]?,
        })
    }

    /// The placements, in the order in which they were added.
    pub(crate) fn placed(&self) -> &[Placement]
        ensures value { result.now ≡ self.now.placed }
        ensures so_far { IsFeasibleSoFar self.now.snapshot self.now.placed }
        ensures few { length self.now.placed ≤ most_pending }
    {
        self.recall();
        self.build.placed()
    }

    /// Recalls, where a proof needs it, what the type keeps. It does nothing.
    pub(crate) fn recall(&self)
        ensures orderly { IsOrderly self.now.snapshot }
        ensures so_far { IsFeasibleSoFar self.now.snapshot self.now.placed }
        ensures few { length self.now.placed ≤ most_pending }
    {
        self.snapshot.recall_valid();
        let _ = self.build.placed();
    }

    /// Whether the request is placed.
    pub(crate) fn is_placed(&self, request: RequestNo) -> bool
        ensures { IsTrue result ↔ Contains (requests_of self.now.placed) request.0 }
    {
        self.build.is_placed(request)
    }

    /// Whether no request of the group at a place is placed.
    pub(crate) fn has_none_placed(&self, group: usize) -> bool
        requires { group < length self.now.snapshot.groups }
        ensures { IsTrue result ↔ HasNonePlaced self.now.snapshot self.now.placed group }
    {
        self.build.has_none_placed(group)
    }

    /// Whether the plan with this possible start added is feasible but for its ANDs.
    pub(crate) fn can_add(&self, start: Placement) -> bool
        requires { IsPossibleStart self.now.snapshot start }
        ensures { IsTrue result ↔ IsFeasibleSoFar self.now.snapshot (self.now.placed ++ start ∷ []) }
    {
        self.build.can_add(start)
    }

    /// Adds a possible start that can be added, at the end.
    pub(crate) fn add(&mut self, start: Placement)
        requires possible { IsPossibleStart self.old.snapshot start }
        requires fits { IsFeasibleSoFar self.old.snapshot (self.old.placed ++ start ∷ []) }
        ensures { self.new ≡ record { snapshot = self.old.snapshot; placed = self.old.placed ++ start ∷ [] } }
    {
        self.recall();
        let slots = Slots::of(self.snapshot, self.build.places(), start);
        self.build.add(start);
        write_marks(&mut self.marks, slots.from, slots.to, slots.to as u16);
    }

    /// Takes the placement out that was added last.
    pub(crate) fn remove_last(&mut self)
        requires { 0 < length self.old.placed }
        ensures { self.new ≡ record { snapshot = self.old.snapshot; placed = take (length self.old.placed - 1) self.old.placed } }
    {
        self.recall();
        let start = last_of(self.build.placed());
        let slots = Slots::of(self.snapshot, self.build.places(), start);
        let _ = self.build.remove(start.request);
        write_marks(&mut self.marks, slots.from, slots.to, 0);
    }

    /// Takes the placements out that were added after the first `count`.
    pub(crate) fn truncate(&mut self, count: usize)
        requires { count ≤ length self.old.placed }
        ensures { self.new ≡ record { snapshot = self.old.snapshot; placed = take count self.old.placed } }
    {
        while self.placed().len() > count {
            self.remove_last();
        }
    }

    /// Takes all placements out.
    pub(crate) fn clear(&mut self)
        ensures { self.new ≡ record { snapshot = self.old.snapshot; placed = [] } }
    {
        self.build.clear();
        clear_marks(&mut self.marks);
    }

    /// The first slice of a run, before the slice `before`, from which on the slices of an observation are free on the
    /// run's telescope. All slices that a placement blocks are passed in one step.
    pub(crate) fn first_free(&self, run: Run, size: u32, before: u32) -> Option<SliceNo>
        requires run { IsPossibleRun self.now.snapshot run }
        requires size { size ≡ size_of self.now.snapshot run.request.0 }
        ensures { MatchOption result
            (HasNoApart self.now.snapshot self.now.placed run before)
            (λ slice. IsFirstApart self.now.snapshot self.now.placed run before slice.0) }
    {
        self.recall();
        let first = self.snapshot.parts().first.0;
        let to = (run.first.0 + run.count).min(before);
        if to <= run.first.0 {
            return None;
        }
        let row = usize::from(run.telescope.0) * self.snapshot.parts().slices as usize;
        let from = row + (run.first.0 - first) as usize;
        let end = row + (to - first) as usize;
        match first_clear(self.marks.as_slice(), from, end, size as usize) {
            Some(slot) => Some(SliceNo(first + (slot - row) as u32)),
            None => None,
        }
    }
}

fn last_of(placed: &[Placement]) -> Placement
    requires { 0 < length placed.now }
    ensures { HoldsAt (λ start. start ≡ result) placed.now (length placed.now - 1) }
{
    placed[placed.len() - 1]
}
