// The slots that placements occupy.

ghost use Rattle.std.specs.Prelude.{◌≡◌, ◌<◌, length};
ghost use Rattle.plan_base.specs.Requests.{listed, place_of};
ghost use Rattle.plan_base.specs.Starts.{IsPossibleStart};
ghost use Rattle.groups.specs.Footprints.{first_slot, end_slot};
ghost use Rattle.groups.specs.Places.{ArePlaces};

use crate::places::Places;
use plan_base::{Placement, Snapshot, slices_for};

/// The slots of a placement. Slot `t * slices + i` is slice `i` of the horizon on telescope `t`.
#[derive(Clone, Copy)]
pub struct Slots {
    /// The first slot.
    pub from: usize,
    /// The slot after the last.
    pub to: usize,
}

impl Slots {
    /// The slots that a possible start of a snapshot occupies.
    pub fn of(snapshot: &Snapshot, places: &Places, start: Placement) -> Slots
        requires places { ArePlaces snapshot.now places.now }
        requires possible { IsPossibleStart snapshot.now start }
        ensures from { result.from ≡ first_slot snapshot.now start }
        ensures to { result.to ≡ end_slot snapshot.now start }
    {
        let place = places.known_place(snapshot, start.request);
        Slots::at(snapshot, place, start)
    }

    /// The same, where the place of its request is known.
    pub(crate) fn at(snapshot: &Snapshot, place: usize, start: Placement) -> Slots
        requires possible { IsPossibleStart snapshot.now start }
        requires place { place ≡ place_of snapshot.now start.request.0 }
        requires within { place < length (listed snapshot.now) }
        ensures from { result.from ≡ first_slot snapshot.now start }
        ensures to { result.to ≡ end_slot snapshot.now start }
    {
        let parts = snapshot.parts();
        let seconds = u64::from(snapshot.request_at(place).seconds);
        let row = usize::from(start.telescope.0) * parts.slices as usize;
        let from = row + (start.slice.0 - parts.first.0) as usize;
        Slots {
            from,
            to: from + slices_for(u64::from(parts.len), seconds) as usize,
        }
    }
}
