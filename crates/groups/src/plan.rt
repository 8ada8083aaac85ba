// Plans that are built placement by placement.

ghost use Rattle.std.specs.Prelude.{◌≡◌, ◌<◌, ◌==◌, ◌↔◌, false, [], ◌∷◌, ◌++◌, length, find, All, Contains, IsTrue, IfOk, IfSome, IfNone};
ghost use Rattle.plan_base.specs.Starts.{IsPossibleStart};
ghost use Rattle.plan_base.specs.Feasible.{requests_of, IsFeasible};
ghost use Rattle.plan_base.specs.FeasibleSoFar.{IsFeasibleSoFar};
ghost use Rattle.plan_base.specs.Saturated.{HasNonePlaced};
ghost use Rattle.groups.specs.Building.{without, IsPartly, IsFirstPartly, IsOpenAnd};
ghost use Rattle.groups.specs.Places.{ArePlaces};
ghost use Rattle.groups.specs.Tables.{AreTables};

use crate::footprint::footprint_of;
use crate::places::Places;
use crate::tables::Tables;
use plan_base::{GroupNo, GroupPart, Op, Placement, RequestNo, Snapshot};
use std::alloc::{AllocError, Global};
use std::marker::Model;

/// A plan for a snapshot that is built placement by placement. At any time it is feasible, but that of an AND some
/// requests may be placed and others not yet. Contracts see the snapshot's parts and the placements in their order.
pub struct PlanBuild<'a> {
    snapshot: &'a Snapshot,
    placements: Vec<Placement>,
    tables: Tables,
    places: Places,
}

impl Drop for PlanBuild<'_> {
    fn drop(self) {
        let Self {
            snapshot: _,
            placements: _,
            tables: _,
            places: _,
        } = self;
    }
}

impl<'a> Model for PlanBuild<'a> {
    ghost use Rattle.groups.specs.Building.{Building};

    ghost Value = { Building };

    ghost use Rattle.std.specs.Prelude.{vec_capacity};
    ghost use Rattle.groups.specs.Kept.{IsBuilt};

    ghost view = { λ a. record { snapshot = a.snapshot.now; placed = a.placements.items } };

    ghost invariant = { λ a. IsBuilt a.snapshot.now a.placements.items (vec_capacity a.placements) a.tables a.places };
}

impl<'a> PlanBuild<'a> {
    /// The plan that places nothing, with room for all that may be added. Fails only for want of memory.
    pub fn new(alloc: Global, snapshot: &'a Snapshot) -> Result<PlanBuild<'a>, AllocError>
        ensures { IfOk result (λ plan. plan ≡ record { snapshot = snapshot.now; placed = [] }) }
    {
        let placements = Vec::with_capacity(alloc, snapshot.request_count())?;
        let tables = Tables::new(alloc, snapshot)?;
        let places = Places::new(alloc, snapshot)?;
        Ok(PlanBuild {
            snapshot,
            placements,
            tables,
            places,
        })
    }

    /// The placements, in the order in which they were added.
    pub fn placed(&self) -> &[Placement]
        ensures value { result.now ≡ self.now.placed }
        ensures so_far { IsFeasibleSoFar self.now.snapshot self.now.placed }
    {
        self.placements.as_slice()
    }

    /// Where the requests of the snapshot stand.
    pub fn places(&self) -> &Places
        ensures { ArePlaces self.now.snapshot result.now }
    {
        &self.places
    }

    /// Whether a request is placed. It doesn't look through the plan.
    pub fn is_placed(&self, request: RequestNo) -> bool
        ensures { IsTrue result ↔ Contains (requests_of self.now.placed) request.0 }
    {
        match self.places.place_of(self.snapshot, request) {
            Some(place) => self.tables.placed[place],
            None => false,
        }
    }

    /// Whether no request of the group at a place is placed, which is known at once.
    pub fn has_none_placed(&self, group: usize) -> bool
        requires { group < length self.now.snapshot.groups }
        ensures { IsTrue result ↔ HasNonePlaced self.now.snapshot self.now.placed group }
    {
        self.snapshot.recall_valid();
        self.tables.members[group] == 0
    }

    /// Whether the plan with this possible start added is feasible but for its ANDs: the request isn't placed, its
    /// slices are free, no other request of its ONEOF is placed, and the quota of its group has the seconds left.
    /// It costs time for the slices of the placement.
    pub fn can_add(&self, placement: Placement) -> bool
        requires { IsPossibleStart self.now.snapshot placement }
        ensures { IsTrue result ↔ IsFeasibleSoFar self.now.snapshot (self.now.placed ++ placement ∷ []) }
    {
        let footprint = footprint_of(self.snapshot, &self.places, placement);
        let quotas = self.snapshot.parts().quotas.as_slice();
        self.tables.has_room(quotas, &footprint)
    }

    /// Adds a possible start of which [`PlanBuild::can_add`] is true, at the end. It takes no memory.
    pub fn add(&mut self, placement: Placement)
        requires possible { IsPossibleStart self.old.snapshot placement }
        requires fits { IsFeasibleSoFar self.old.snapshot (self.old.placed ++ placement ∷ []) }
        ensures { self.new ≡ record { snapshot = self.old.snapshot; placed = self.old.placed ++ placement ∷ [] } }
    {
        let footprint = footprint_of(self.snapshot, &self.places, placement);
        self.snapshot.recall_valid();
        self.tables.take(&footprint);
        self.placements.push_reserved(placement);
    }

    /// Takes the placement of a request out; the others keep their order. False exactly where the request isn't
    /// placed, and then nothing changes.
    pub fn remove(&mut self, request: RequestNo) -> bool
        ensures found { IsTrue result ↔ Contains (requests_of self.old.placed) request.0 }
        ensures after { self.new ≡ record { snapshot = self.old.snapshot; placed = without request.0 self.old.placed } }
        ensures kept { result ≡ false → self.new ≡ self.old }
    {
        let Some(placement) = placement_of(self.placements.as_slice(), request) else {
            return false;
        };
        let footprint = footprint_of(self.snapshot, &self.places, placement);
        self.snapshot.recall_valid();
        self.tables.release(&footprint);
        self.placements
            .retain(|placement| placement.request.0 != request.0);
        true
    }

    /// Takes all placements out.
    pub fn clear(&mut self)
        ensures { self.new ≡ record { snapshot = self.old.snapshot; placed = [] } }
    {
        let placed = self.placements.as_slice();
        release_all(self.snapshot, &self.places, placed, &mut self.tables);
        self.placements.clear();
    }

    /// The lowest AND of which some requests are placed and others not. None exactly where there is no such AND, and
    /// then the plan is feasible.
    pub fn open_and(&self) -> Option<GroupNo>
        ensures some { IfSome result (λ number. IsOpenAnd self.now.snapshot self.now.placed number.0) }
        ensures none { IfNone result (IsFeasible self.now.snapshot self.now.placed) }
    {
        let groups = self.snapshot.parts().groups.as_slice();
        let members = self.tables.members.as_slice();
        match first_partly(groups, members) {
            Some(place) => Some(groups[place].group),
            None => None,
        }
    }
}

/// The place of the first AND of which some requests are placed and others not.
fn first_partly(groups: &[GroupPart], members: &[u32]) -> Option<usize>
    requires { length members.now ≡ length groups.now }
    ensures { IsFirstPartly groups.now members.now result }
{
    for (place, group) in groups.iter().enumerate() {
        if is_partly(group, members[place]) {
            return Some(place);
        }
    }
    None
}

/// Whether the group is an AND of which some requests are placed, and others not.
fn is_partly(group: &GroupPart, placed: u32) -> bool
    ensures { IsTrue result ↔ IsPartly group.now placed }
{
    match group.op {
        Op::And => 0 < placed && (placed as usize) < group.requests.len(),
        Op::Single | Op::Many | Op::OneOf => false,
    }
}

/// The placement of a request, if it is placed.
fn placement_of(placements: &[Placement], request: RequestNo) -> Option<Placement>
    ensures { result ≡ find (λ p. p.request.0 == request.0) placements.now }
{
    placements
        .iter()
        .copied()
        .find(|placement| placement.request.0 == request.0)
}

/// Gives free what all placements take up.
fn release_all(snapshot: &Snapshot, places: &Places, placements: &[Placement], tables: &mut Tables)
    requires places { ArePlaces snapshot.now places.now }
    requires possible { All (IsPossibleStart snapshot.now) placements.now }
    requires tables { AreTables snapshot.now placements.now tables.old }
    ensures { AreTables snapshot.now [] tables.new }
{
    snapshot.recall_valid();
    for placement in placements {
        let footprint = footprint_of(snapshot, places, *placement);
        tables.release(&footprint);
    }
}
