// Plans that are made of the starts that prices give.

ghost use Rattle.std.specs.Prelude.{◌≡◌, [], length, All, IfOk};
ghost use Rattle.plan_base.specs.Starts.{IsPossibleStart, value_of_plan};
ghost use Rattle.plan_base.specs.Feasible.{IsDisjoint, IsFeasible};
ghost use Rattle.plan_base.specs.Saturated.{IsSaturated};
ghost use Rattle.plan_base.specs.Repaired.{IsRepairedFrom};
ghost use Rattle.snapshot_starts.specs.Runs.{AreAllStarts};

use crate::draft::Draft;
use crate::fill::fill;
use crate::firsts::note_firsts;
use crate::offers::Offers;
use crate::ranked::{Ranked, add_each, rank_starts};
use crate::trials::Trials;
use crate::wholes::add_wholes;
use crate::worth::value_of;
use plan_base::{Placement, Snapshot, empty_is_feasible, filled_is_saturated};
use snapshot_starts::Starts;
use std::alloc::{AllocError, Global};
use std::marker::Model;

/// What it takes to make plans of the starts that prices give, a primal heuristic: first ANDs that can be added whole,
/// then other starts by falling worth, and then what fill adds. Contracts see the snapshot's parts and the plan of the
/// last run.
pub struct Repairer<'a> {
    snapshot: &'a Snapshot,
    trials: Trials,
    offers: Offers,
    draft: Draft<'a>,
    /// The first start that was chosen of each request.
    firsts: Vec<Option<Placement>>,
    /// Of each request outside every AND the start that was chosen and is tried first.
    noted: Vec<Option<Ranked>>,
    /// These in order, with room for one of each request.
    ranked: Vec<Ranked>,
}

impl Drop for Repairer<'_> {
    fn drop(self) {
        let Self {
            snapshot: _,
            trials: _,
            offers: _,
            draft: _,
            firsts: _,
            noted: _,
            ranked: _,
        } = self;
    }
}

impl<'a> Model for Repairer<'a> {
    ghost use Rattle.repair.specs.Repairing.{Repairing};

    ghost Value = { Repairing };

    ghost use Rattle.std.specs.Prelude.{length, vec_capacity};
    ghost use Rattle.repair.specs.Repairing.{IsReady};

    ghost view = { λ a. record { snapshot = a.snapshot.now; plan = a.draft.placed } };

    ghost invariant = { λ a. IsReady a.snapshot.now a.trials a.offers a.draft (length a.firsts.items) (length a.noted.items) (vec_capacity a.ranked) };
}

impl<'a> Repairer<'a> {
    /// What a snapshot needs. The starts are all possible starts of the snapshot. It takes all memory that it will need.
    /// Fails only for want of memory.
    pub fn new(
        alloc: Global,
        snapshot: &'a Snapshot,
        starts: &Starts,
    ) -> Result<Repairer<'a>, AllocError>
        requires { AreAllStarts snapshot.now starts.now }
        ensures { IfOk result (λ repairer. repairer ≡ record { snapshot = snapshot.now; plan = [] }) }
    {
        let count = snapshot.request_count();
        Ok(Repairer {
            snapshot,
            trials: Trials::new(alloc, snapshot, starts)?,
            offers: Offers::new(alloc, snapshot)?,
            draft: Draft::new(alloc, snapshot)?,
            firsts: vec![in alloc; None; count]?,
            noted: vec![in alloc; None; count]?,
            ranked: Vec::with_capacity(alloc, count)?,
        })
    }

    /// Makes the plan of these starts, which are those that telescopes choose at prices, listed by telescope, then slice.
    /// Nothing of the run before is left. The answer is what the plan is worth, in the units of a request's value. It
    /// takes no memory.
    pub fn run(&mut self, chosen: &[Placement]) -> u64
        requires possible { All (IsPossibleStart self.old.snapshot) chosen.now }
        requires disjoint { IsDisjoint self.old.snapshot chosen.now }
        ensures same_snapshot { self.new.snapshot ≡ self.old.snapshot }
        ensures repaired { IsRepairedFrom self.old.snapshot chosen.now self.new.plan }
        ensures value { result ≡ value_of_plan self.old.snapshot self.new.plan }
        ensures feasible { IsFeasible self.old.snapshot self.new.plan }
        ensures saturated { IsSaturated self.old.snapshot self.new.plan }
    {
        self.snapshot.recall_valid();
        empty_is_feasible(self.snapshot);
        filled_is_saturated(self.snapshot);
        note_firsts(self.snapshot, &self.offers, chosen, &mut self.firsts);
        rank_starts(
            self.snapshot,
            &self.offers,
            chosen,
            &mut self.noted,
            &mut self.ranked,
        );
        self.draft.clear();
        add_wholes(&mut self.draft, &self.trials, self.firsts.as_slice());
        add_each(&mut self.draft, self.ranked.as_slice());
        fill(&mut self.draft, &self.trials);
        value_of(self.snapshot, &self.offers, self.draft.placed())
    }

    /// The plan of the last run, in the order in which its placements were added, and nothing before the first run.
    pub fn plan(&self) -> &[Placement]
        ensures { result.now ≡ self.now.plan }
    {
        self.draft.placed()
    }
}
