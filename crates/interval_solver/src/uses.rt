// Starts, and how often each request is among them.

ghost use Rattle.std.specs.Prelude.{◌≡◌, ◌<◌, ◌^◌, [], ◌∷◌, ◌++◌, length, map, HoldsAt, IfOk};
ghost use Rattle.plan_base.specs.Requests.{listed, place_of, IsKnown};
ghost use Rattle.plan_base.specs.Round.{uses_of};
ghost use Rattle.interval_solver.specs.Uses.{IsTally};

use plan_base::{Placement, Snapshot};
use std::alloc::{AllocError, Global};
use std::marker::Model;

/// What telescopes of a snapshot start, and how often they start each request. Contracts see the snapshot's parts, the
/// starts, and for how many there is room.
pub struct Uses<'a> {
    snapshot: &'a Snapshot,
    starts: Vec<Placement>,
    /// The place of the request of each start.
    places: Vec<u32>,
    /// How often the request at each place is started.
    counts: Vec<u32>,
}

impl Drop for Uses<'_> {
    fn drop(self) {
        let Self {
            snapshot: _,
            starts: _,
            places: _,
            counts: _,
        } = self;
    }
}

impl<'a> Model for Uses<'a> {
    ghost use Rattle.std.specs.Prelude.{◌<◌, ◌^◌, min, vec_capacity};
    ghost use Rattle.interval_solver.specs.Uses.{Started, AreUsesOf};

    ghost Value = { Started };

    ghost view = { λ a. record { snapshot = a.snapshot.now; starts = a.starts.items; room = min (vec_capacity a.starts) (vec_capacity a.places) } };

    ghost invariant = { λ a. AreUsesOf a.snapshot.now a.starts.items a.places.items a.counts.items
        × (min (vec_capacity a.starts) (vec_capacity a.places) < 2 ^ 32) };
}

impl<'a> Uses<'a> {
    /// No start, with room for some, fewer than 2^32. Fails only for want of memory.
    pub fn new(alloc: Global, snapshot: &'a Snapshot, room: usize) -> Result<Uses<'a>, AllocError>
        requires { room < 2 ^ 32 }
        ensures { IfOk result (λ uses. uses ≡ record { snapshot = snapshot.now; starts = []; room = room }) }
    {
        Ok(Uses {
            snapshot,
            starts: Vec::with_capacity(alloc, room)?,
            places: Vec::with_capacity(alloc, room)?,
            counts: vec![in alloc; 0u32; snapshot.request_count()]?,
        })
    }

    /// Takes all starts out. It costs a step for each.
    pub fn clear(&mut self)
        ensures { self.new ≡ record { snapshot = self.old.snapshot; starts = []; room = self.old.room } }
    {
        take_back(self.places.as_slice(), self.counts.as_mut_slice());
        self.places.clear();
        self.starts.clear();
    }

    /// Adds a start of the request at a place. It takes no memory.
    pub(crate) fn add(&mut self, place: u32, start: Placement)
        requires known { IsKnown self.old.snapshot start.request.0 }
        requires place { place ≡ place_of self.old.snapshot start.request.0 }
        requires room { length self.old.starts < self.old.room }
        ensures { self.new ≡ record { snapshot = self.old.snapshot; starts = self.old.starts ++ start ∷ []; room = self.old.room } }
    {
        self.counts[place as usize] += 1;
        self.places.push_reserved(place);
        self.starts.push_reserved(start);
    }

    /// The starts, in the order in which they were added.
    pub fn starts(&self) -> &[Placement]
        ensures { result.now ≡ self.now.starts }
    {
        self.starts.as_slice()
    }

    /// How often each request is started, by their places.
    pub fn counts(&self) -> &[u32]
        ensures { result.now ≡ map (λ x. uses_of self.now.starts x.request.request.0) (listed self.now.snapshot) }
    {
        self.snapshot.recall_valid();
        self.counts.as_slice()
    }

    /// How often the request at a place is started.
    pub(crate) fn count(&self, place: usize) -> u32
        requires { place < length (listed self.now.snapshot) }
        ensures { HoldsAt (λ x. result ≡ uses_of self.now.starts x.request.request.0) (listed self.now.snapshot) place }
    {
        self.snapshot.recall_valid();
        self.counts[place]
    }
}

/// Counts each of the places once less.
fn take_back(places: &[u32], counts: &mut [u32])
    requires { IsTally places.now counts.old }
    ensures count { length counts.new ≡ length counts.old }
    ensures tally { IsTally [] counts.new }
{
    for place in places {
        counts[*place as usize] -= 1;
    }
}
