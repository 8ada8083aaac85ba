// Lanes whose rounds are made in step.

ghost use Rattle.std.specs.Prelude.{◌≡◌, ◌≢◌, ℕ, ◌+◌, ◌*◌, ◌≤◌, ◌<◌, length, All, HoldsAt, IfOk};
ghost use Rattle.interval_solver.specs.Limits.{most_at_once};
ghost use Rattle.plan_base.specs.Limits.{most_rounds, most_lanes};
ghost use Rattle.plan_base.specs.Round.{greatest_value};
ghost use Rattle.snapshot_starts.specs.Runs.{AreAllStarts};
ghost use Rattle.interval_solver.specs.Solving.{AreRowsOf};
ghost use Rattle.lanes.specs.Rounds.{IsLane, IsSolvedAt, IsLaneNow, IsAnswer};
ghost use Rattle.lanes.specs.Ready.{IsEmpty};

use crate::bound_parts::BoundParts;
use crate::lane_prices::LanePrices;
use crate::solving::{clear_uses, copy_lane, solve_telescopes, write_lanes};
use interval_solver::{Rows, Uses, zero_table};
use plan_base::{Placement, Snapshot, weak_duality};
use repair::Repairer;
use snapshot_starts::Starts;
use std::alloc::{AllocError, Global};
use std::marker::Model;

/// What a round gave.
#[derive(Clone, Copy)]
pub struct RoundAnswer {
    /// The bound of the round's prices.
    pub bound: u64,
    /// The value of the plan that is repaired from what telescopes start at these prices.
    pub value: u64,
}

/// `L` lanes of a snapshot, whose telescopes are solved together, with all memory that rounds need. Contracts see the
/// snapshot's parts, the prices of each lane, what was found when they were solved last, and the plan of the last answer.
pub(crate) struct Steps<'a, const L: usize> {
    snapshot: &'a Snapshot,
    rows: &'a [Rows<'a>],
    lanes: Vec<LanePrices>,
    /// The prices of all lanes, side by side.
    prices: Vec<[i64; L]>,
    /// What solving a telescope writes.
    table: Vec<[i64; L]>,
    /// The bests of each telescope.
    bests: Vec<[i64; L]>,
    /// What telescopes start in each lane.
    uses: Vec<Uses<'a>>,
    bound_parts: BoundParts,
    repairer: Repairer<'a>,
    greatest_value: u32,
}

impl<const L: usize> Drop for Steps<'_, L> {
    fn drop(self) {
        let Self {
            snapshot: _,
            rows: _,
            lanes: _,
            prices: _,
            table: _,
            bests: _,
            uses: _,
            bound_parts: _,
            repairer: _,
            greatest_value: _,
        } = self;
    }
}

impl<'a, const L: usize> Model for Steps<'a, L> {
    ghost use Rattle.lanes.specs.Rounds.{Stepping};

    ghost Value = { Stepping };

    ghost use Rattle.lanes.specs.Ready.{IsReady, AreTables};

    ghost view = { λ a. record { snapshot = a.snapshot.now; lanes = a.lanes.items; uses = a.uses.items; bests = a.bests.items; plan = a.repairer.plan } };

    ghost invariant = { λ a. IsReady a.snapshot.now L a.rows.now a.lanes.items a.uses.items a.bound_parts a.repairer a.greatest_value
        × AreTables a.snapshot.now L a.prices.items a.table.items a.bests.items };
}

impl<'a, const L: usize> Steps<'a, L> {
    /// Lanes that are to be begun. The starts are all possible starts of the snapshot, and the rows those of all its
    /// telescopes. Fails only for want of memory.
    pub(crate) fn new(
        alloc: Global,
        snapshot: &'a Snapshot,
        starts: &Starts,
        rows: &'a [Rows<'a>],
    ) -> Result<Self, AllocError>
        requires lanes { (1 ≤ L) × (L ≤ most_at_once) }
        requires starts { AreAllStarts snapshot.now starts.now }
        requires rows { AreRowsOf snapshot.now (length snapshot.now.telescopes) rows.now }
        ensures snapshot { IfOk result (λ steps. steps.snapshot ≡ snapshot.now) }
        ensures lanes { IfOk result (λ steps. length steps.lanes ≡ L) }
    {
        snapshot.recall_valid();
        let telescopes = snapshot.parts().telescopes.len();
        let slices = snapshot.parts().slices as usize;
        Ok(Steps {
            snapshot,
            rows,
            lanes: lanes_of(alloc, snapshot, L)?,
            prices: zero_table(alloc, snapshot.request_count())?,
            table: zero_table(alloc, slices + 1)?,
            bests: zero_table(alloc, telescopes)?,
            uses: uses_of(alloc, snapshot, L, telescopes * slices)?,
            bound_parts: BoundParts::new(alloc, snapshot)?,
            repairer: Repairer::new(alloc, snapshot, starts)?,
            greatest_value: greatest_value(snapshot),
        })
    }

    /// Begins a lane, below 8, as one of those in step: its prices are all 0, and no round was made.
    pub(crate) fn begin(&mut self, place: usize, lane: u32)
        requires place { place < L }
        requires lane { lane < most_lanes }
        ensures same_snapshot { self.new.snapshot ≡ self.old.snapshot }
        ensures begun { IsLaneNow self.old.snapshot place lane 0 self.old.lanes self.new.lanes }
    {
        self.lanes[place].begin(lane);
    }

    /// Solves all telescopes at the prices of all lanes.
    pub(crate) fn solve(&mut self)
        ensures same_snapshot { self.new.snapshot ≡ self.old.snapshot }
        ensures lanes { self.new.lanes ≡ self.old.lanes }
        ensures solved { (place : ℕ) → place < L → IsSolvedAt self.new place }
    {
        write_lanes(self.lanes.as_slice(), self.prices.as_mut_slice());
        clear_uses(self.uses.as_mut_slice());
        solve_telescopes(
            self.snapshot,
            self.rows,
            self.prices.as_slice(),
            self.table.as_mut_slice(),
            self.bests.as_mut_slice(),
            self.uses.as_mut_slice(),
        );
    }

    /// What a lane's round gives, whose telescopes were solved.
    pub(crate) fn answer(&mut self, place: usize) -> RoundAnswer
        requires place { place < L }
        requires solved { IsSolvedAt self.old place }
        ensures same_snapshot { self.new.snapshot ≡ self.old.snapshot }
        ensures lanes { self.new.lanes ≡ self.old.lanes }
        ensures solved { (k : ℕ) → IsSolvedAt self.old k → IsSolvedAt self.new k }
        ensures answer { HoldsAt (λ lane. IsAnswer self.old.snapshot lane result.bound result.value self.new.plan) self.old.lanes place }
    {
        copy_lane(
            self.bests.as_slice(),
            place,
            self.bound_parts.bests.as_mut_slice(),
        );
        let lane = &self.lanes[place];
        let bound = self
            .bound_parts
            .bound(self.snapshot, &lane.prices, &lane.quota_prices);
        weak_duality(self.snapshot, &lane.prices, &lane.quota_prices);
        let value = self.repairer.run(self.uses[place].starts());
        RoundAnswer { bound, value }
    }

    /// The plan of the last answer.
    pub(crate) fn plan(&self) -> &[Placement]
        ensures { result.now ≡ self.now.plan }
    {
        self.repairer.plan()
    }

    /// The prices of a lane's next round.
    pub(crate) fn lane(&self, place: usize) -> &LanePrices
        requires { place < L }
        ensures at { HoldsAt (λ lane. lane ≡ result.now) self.now.lanes place }
        ensures is_lane { IsLane self.now.snapshot result.now }
    {
        &self.lanes[place]
    }

    /// Moves the prices of a lane on, after its telescopes were solved.
    pub(crate) fn advance(&mut self, place: usize)
        requires place { place < L }
        requires solved { IsSolvedAt self.old place }
        requires made { HoldsAt (λ lane. lane.made < most_rounds) self.old.lanes place }
        ensures same_snapshot { self.new.snapshot ≡ self.old.snapshot }
        ensures next { HoldsAt (λ lane. IsLaneNow self.old.snapshot place lane.lane (lane.made + 1) self.old.lanes self.new.lanes) self.old.lanes place }
        ensures solved { (k : ℕ) → k ≢ place → IsSolvedAt self.old k → IsSolvedAt self.new k }
    {
        self.lanes[place].advance(
            self.snapshot,
            self.greatest_value,
            &self.uses[place],
            &mut self.bound_parts.net,
        );
    }
}

/// Uses for so many lanes, each with room for so many starts.
fn uses_of<'a>(
    alloc: Global,
    snapshot: &'a Snapshot,
    lanes: usize,
    room: usize,
) -> Result<Vec<Uses<'a>>, AllocError>
    requires { room ≡ length snapshot.now.telescopes * snapshot.now.slices }
    ensures count { IfOk result (λ uses. length uses.items ≡ lanes) }
    ensures empty { IfOk result (λ uses. All (IsEmpty snapshot.now) uses.items) }
{
    snapshot.recall_valid();
    let mut uses = Vec::with_capacity(alloc, lanes)?;
    for _ in 0..lanes {
        uses.push(Uses::new(alloc, snapshot, room)?)?;
    }
    Ok(uses)
}

/// The first prices of so many lanes.
fn lanes_of(alloc: Global, snapshot: &Snapshot, count: usize) -> Result<Vec<LanePrices>, AllocError>
    ensures count { IfOk result (λ lanes. length lanes.items ≡ count) }
    ensures lanes { IfOk result (λ lanes. All (IsLane snapshot.now) lanes.items) }
{
    let mut lanes = Vec::with_capacity(alloc, count)?;
    for _ in 0..count {
        lanes.push(LanePrices::new(alloc, snapshot)?)?;
    }
    Ok(lanes)
}

/// The greatest value of a request, or 0.
fn greatest_value(snapshot: &Snapshot) -> u32
    ensures { result ≡ greatest_value snapshot.now }
{
    let mut greatest = 0;
    for place in 0..snapshot.request_count() {
        greatest = greatest.max(snapshot.request_at(place).value);
    }
    greatest
}
