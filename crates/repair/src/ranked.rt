// The starts of requests outside every AND, by falling worth.

ghost use Rattle.std.specs.Prelude.{◌≡◌, ◌≤◌, length, map, filter_map, All, vec_capacity};
ghost use Rattle.plan_base.specs.declared.parts.Op.TheVariants.{And};
ghost use Rattle.plan_base.specs.Requests.{listed, group_of, IsKind};
ghost use Rattle.plan_base.specs.Starts.{IsPossibleStart};
ghost use Rattle.plan_base.specs.Feasible.{IsFeasible};
ghost use Rattle.plan_base.specs.Repaired.{AddsEach};
ghost use Rattle.repair.specs.Worths.{AreOffers, IsOffer};
ghost use Rattle.repair.specs.Repairs.{AddsOne, AreNoted, AreOrdered, IsEarlier, start_of, rank_of};

use crate::draft::Draft;
use crate::firsts::forget_all;
use crate::offers::{Offer, Offers};
use crate::worth::worth_of;
use plan_base::{Placement, RequestNo, SliceNo, Snapshot, TelescopeNo};
use std::cmp::Reverse;

/// A start, ordered by its worth, falling, then by request, telescope and slice.
#[derive(Clone, Copy, PartialEq, Eq, PartialOrd, Ord)]
pub(crate) struct Ranked {
    /// What the request is worth at this start; the greatest comes first.
    pub worth: Reverse<u32>,
    /// Which request it is a start of.
    pub request: RequestNo,
    /// On which telescope it is.
    pub telescope: TelescopeNo,
    /// Its first slice.
    pub slice: SliceNo,
}

/// Writes down, of each request outside every AND that has some of these starts, the one that is tried first, in the
/// order in which they are tried. The starts share no slices, so where it can't be added no other of its request can. It
/// notes them by the places of the requests, and takes no memory.
pub(crate) fn rank_starts(
    snapshot: &Snapshot,
    offers: &Offers,
    starts: &[Placement],
    noted: &mut Vec<Option<Ranked>>,
    ranked: &mut Vec<Ranked>,
)
    requires offers { AreOffers snapshot.now offers.now }
    requires possible { All (IsPossibleStart snapshot.now) starts.now }
    requires count { length noted.old.items ≡ length (listed snapshot.now) }
    requires room { length (listed snapshot.now) ≤ vec_capacity ranked.old }
    ensures ordered { AreOrdered snapshot.now starts.now (map start_of ranked.new.items) }
    ensures count { length noted.new.items ≡ length noted.old.items }
    ensures room { vec_capacity ranked.new ≡ vec_capacity ranked.old }
{
    note_ranks(snapshot, offers, starts, noted);
    list_noted(noted.as_slice(), ranked);
    ranked.sort_unstable();
}

/// Notes of each request outside every AND, by its place, that of these starts of its own which is tried first.
fn note_ranks(
    snapshot: &Snapshot,
    offers: &Offers,
    starts: &[Placement],
    noted: &mut Vec<Option<Ranked>>,
)
    requires offers { AreOffers snapshot.now offers.now }
    requires possible { All (IsPossibleStart snapshot.now) starts.now }
    requires count { length noted.old.items ≡ length (listed snapshot.now) }
    ensures { AreNoted snapshot.now starts.now noted.new.items }
{
    forget_all(noted);
    for start in starts {
        let place = offers.place_of(snapshot, start.request);
        let offer = offers.by_place[place];
        if !offer.is_of_and {
            noted[place] = earlier(noted[place], rank_of(snapshot, offer, *start));
        }
    }
}

/// The one of two starts that is tried first, of which the one may be noted.
fn earlier(noted: Option<Ranked>, other: Ranked) -> Option<Ranked>
    ensures { IsEarlier noted other result }
{
    match noted {
        Some(noted) if noted < other => Some(noted),
        _ => Some(other),
    }
}

/// Lists what is noted.
fn list_noted(noted: &[Option<Ranked>], ranked: &mut Vec<Ranked>)
    requires room { length noted.now ≤ vec_capacity ranked.old }
    ensures listed { ranked.new.items ≡ filter_map (λ rank. rank) noted.now }
    ensures room { vec_capacity ranked.new ≡ vec_capacity ranked.old }
{
    ranked.clear();
    for place in 0..noted.len() {
        if let Some(rank) = noted[place] {
            ranked.push_reserved(rank);
        }
    }
}

/// A start with its rank.
fn rank_of(snapshot: &Snapshot, offer: Offer, start: Placement) -> Ranked
    requires possible { IsPossibleStart snapshot.now start }
    requires offer { IsOffer snapshot.now start.request.0 offer }
    ensures { result ≡ rank_of snapshot.now start }
{
    Ranked {
        worth: Reverse(worth_of(snapshot, offer, start)),
        request: start.request,
        telescope: start.telescope,
        slice: start.slice,
    }
}

/// Adds each start, in order, with which the plan is feasible.
pub(crate) fn add_each(draft: &mut Draft<'_>, ranked: &[Ranked])
    requires feasible { IsFeasible draft.old.snapshot draft.old.placed }
    requires possible { All (IsPossibleStart draft.old.snapshot) (map start_of ranked.now) }
    requires outside { All (λ p. ¬ (IsKind draft.old.snapshot And (group_of draft.old.snapshot p.request.0))) (map start_of ranked.now) }
    ensures same { draft.new.snapshot ≡ draft.old.snapshot }
    ensures feasible { IsFeasible draft.old.snapshot draft.new.placed }
    ensures adds { AddsEach draft.old.snapshot draft.old.placed (map start_of ranked.now) draft.new.placed }
{
    for rank in ranked {
        let start = Placement {
            request: rank.request,
            telescope: rank.telescope,
            slice: rank.slice,
        };
        add_one(draft, start);
    }
}

/// Adds a start if the plan is feasible with it.
fn add_one(draft: &mut Draft<'_>, start: Placement)
    requires feasible { IsFeasible draft.old.snapshot draft.old.placed }
    requires possible { IsPossibleStart draft.old.snapshot start }
    requires outside { ¬ (IsKind draft.old.snapshot And (group_of draft.old.snapshot start.request.0)) }
    ensures same { draft.new.snapshot ≡ draft.old.snapshot }
    ensures feasible { IsFeasible draft.old.snapshot draft.new.placed }
    ensures adds { AddsOne draft.old.snapshot draft.old.placed start draft.new.placed }
{
    if draft.can_add(start) {
        draft.add(start);
    }
}
