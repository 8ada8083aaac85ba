// One lane, round by round.

ghost use Rattle.std.specs.Prelude.{◌≡◌, ◌+◌, ◌≤◌, ◌<◌, List, length, IfOk};
ghost use Rattle.plan_base.specs.Limits.{most_rounds, most_lanes};
ghost use Rattle.plan_base.specs.declared.claim.Placement.{Placement};
ghost use Rattle.plan_base.specs.Starts.{value_of_plan};
ghost use Rattle.plan_base.specs.Feasible.{IsFeasible};
ghost use Rattle.snapshot_starts.specs.Runs.{AreAllStarts};
ghost use Rattle.interval_solver.specs.Solving.{AreRowsOf};
ghost use Rattle.lanes.specs.Rounds.{IsRoundAnswer};

use crate::steps::{RoundAnswer, Steps};
use interval_solver::Rows;
use plan_base::Snapshot;
use snapshot_starts::Starts;
use std::alloc::{AllocError, Global};
use std::marker::Model;

/// A lane of a snapshot, whose rounds are made one after another. Contracts see the snapshot's parts, the lane and how
/// many rounds it has made.
#[derive(Drop)]
pub struct Lane<'a> {
    steps: Steps<'a, 1>,
}

impl<'a> Model for Lane<'a> {
    ghost use Rattle.std.specs.Prelude.{◌≡◌, length};
    ghost use Rattle.lanes.specs.Rounds.{LaneSeen, lane_seen};

    ghost Value = { LaneSeen };

    ghost view = { λ a. lane_seen a.steps };

    ghost invariant = { λ a. length a.steps.lanes ≡ 1 };
}

impl<'a> Lane<'a> {
    /// Lane 0, begun, with all memory that any lane will need. The starts are all possible starts of the snapshot, and
    /// the rows those of all its telescopes. Fails only for want of memory.
    pub fn new(
        alloc: Global,
        snapshot: &'a Snapshot,
        starts: &Starts,
        rows: &'a [Rows<'a>],
    ) -> Result<Lane<'a>, AllocError>
        requires starts { AreAllStarts snapshot.now starts.now }
        requires rows { AreRowsOf snapshot.now (length snapshot.now.telescopes) rows.now }
        ensures { IfOk result (λ lane. lane ≡ record { snapshot = snapshot.now; lane = 0; made = 0 }) }
    {
        let mut steps = Steps::new(alloc, snapshot, starts, rows)?;
        steps.begin(0, 0);
        Ok(Lane { steps })
    }

    /// Begins a lane, below 8, at its first round: all prices are 0.
    pub fn begin(&mut self, lane: u32)
        requires { lane < most_lanes }
        ensures { self.new ≡ record { snapshot = self.old.snapshot; lane = lane; made = 0 } }
    {
        self.steps.begin(0, lane);
    }

    /// Makes the next round, of 256 at most: the bound of its prices, and the value of the plan that is repaired from what
    /// telescopes start at them. No plan that is feasible for the snapshot is worth more than the bound. It takes no memory.
    pub fn round(&mut self) -> RoundAnswer
        requires { self.old.made < most_rounds }
        ensures answer { IsRoundAnswer self.old.snapshot self.old.lane self.old.made result.bound result.value }
        ensures bound { (plan : List Placement) → IsFeasible self.old.snapshot plan → value_of_plan self.old.snapshot plan ≤ result.bound }
        ensures made { self.new ≡ record { snapshot = self.old.snapshot; lane = self.old.lane; made = self.old.made + 1 } }
    {
        self.steps.solve();
        let answer = self.steps.answer(0);
        self.steps.advance(0);
        answer
    }
}
