// What a placement takes up of what the placements of a plan share.

ghost use Rattle.plan_base.specs.Starts.{IsPossibleStart};
ghost use Rattle.groups.specs.Footprints.{IsFootprint};
ghost use Rattle.groups.specs.Places.{ArePlaces};

use crate::places::Places;
use crate::slots::Slots;
use plan_base::{Op, Placement, Snapshot};

/// What a placement takes up: its request, a place in its group, seconds of its group's quota, and slots.
#[derive(Clone, Copy)]
pub(crate) struct Footprint {
    /// The place of the request among all.
    pub place: usize,
    /// The place of its group.
    pub group: usize,
    /// The kind of its group.
    pub op: Op,
    /// The quota that its group counts towards.
    pub quota: Option<u16>,
    /// How long the request takes, which counts towards that quota.
    pub seconds: u64,
    /// The first slot.
    pub from: usize,
    /// The slot after the last.
    pub to: usize,
}

pub(crate) fn footprint_of(snapshot: &Snapshot, places: &Places, placement: Placement) -> Footprint
    requires places { ArePlaces snapshot.now places.now }
    requires possible { IsPossibleStart snapshot.now placement }
    ensures { IsFootprint snapshot.now placement result }
{
    let parts = snapshot.parts();
    let place = places.known_place(snapshot, placement.request);
    let group = snapshot.group_at(place);
    let part = &parts.groups.as_slice()[group];
    let seconds = u64::from(snapshot.request_at(place).seconds);
    let slots = Slots::at(snapshot, place, placement);
    Footprint {
        place,
        group,
        op: part.op,
        quota: part.quota,
        seconds,
        from: slots.from,
        to: slots.to,
    }
}
