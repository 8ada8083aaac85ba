// What requests are worth, and where they stand among all.

ghost use Rattle.std.specs.Prelude.{◌≡◌, ◌≤◌, ◌<◌, length, IfOk};
ghost use Rattle.plan_base.specs.Limits.{most_pending};
ghost use Rattle.plan_base.specs.Requests.{listed, place_of, IsKnown};
ghost use Rattle.repair.specs.Worths.{AreOffers, AreOffersOf, IsOffer, IsOfferOf};

use groups::Places;
use plan_base::{RequestNo, Snapshot, least_from, slices_for};
use std::alloc::{AllocError, Global};

/// What a request is worth, and how it fades.
#[derive(Clone, Copy)]
pub(crate) struct Offer {
    /// Which request it is.
    pub request: RequestNo,
    /// Whether its group is an AND.
    pub is_of_and: bool,
    /// What it is worth before any of it fades.
    pub value: u32,
    /// The thousandths that are lost with each slice of delay.
    pub fade: u16,
    /// The slice from which it fades.
    pub earliest: u64,
}

/// The offers of all requests, by their places.
pub(crate) struct Offers {
    /// The offer of each request, in their order.
    pub by_place: Vec<Offer>,
    /// Where each request stands among all.
    pub places: Places,
}

impl Drop for Offers {
    fn drop(self) {
        let Self {
            by_place: _,
            places: _,
        } = self;
    }
}

impl Offers {
    /// The offers of all requests. Fails only for want of memory.
    pub(crate) fn new(alloc: Global, snapshot: &Snapshot) -> Result<Offers, AllocError>
        ensures { IfOk result (AreOffers snapshot.now) }
    {
        let by_place = offers_of(alloc, snapshot)?;
        let places = Places::new(alloc, snapshot)?;
        Ok(Offers { by_place, places })
    }

    /// The place among all of a request that is one of them.
    pub(crate) fn place_of(&self, snapshot: &Snapshot, request: RequestNo) -> usize
        requires known { IsKnown snapshot.now request.0 }
        requires offers { AreOffers snapshot.now self.now }
        ensures value { result ≡ place_of snapshot.now request.0 }
        ensures within { result < length (listed snapshot.now) }
    {
        self.places.known_place(snapshot, request)
    }

    /// What a request that is one of the snapshot's offers.
    pub(crate) fn offer_of(&self, snapshot: &Snapshot, request: RequestNo) -> Offer
        requires known { IsKnown snapshot.now request.0 }
        requires offers { AreOffers snapshot.now self.now }
        ensures { IsOffer snapshot.now request.0 result }
    {
        self.by_place[self.place_of(snapshot, request)]
    }
}

/// The offers of all requests, in their order.
fn offers_of(alloc: Global, snapshot: &Snapshot) -> Result<Vec<Offer>, AllocError>
    ensures offers { IfOk result (λ offers. AreOffersOf snapshot.now (length (listed snapshot.now)) offers.items) }
    ensures few { IfOk result (λ offers. length offers.items ≤ most_pending) }
{
    let count = snapshot.request_count();
    let mut offers = Vec::with_capacity(alloc, count)?;
    for place in 0..count {
        offers.push(offer_at(snapshot, place))?;
    }
    Ok(offers)
}

/// What the request at a place offers.
fn offer_at(snapshot: &Snapshot, place: usize) -> Offer
    requires { place < length (listed snapshot.now) }
    ensures { IsOfferOf snapshot.now place result }
{
    snapshot.recall_valid();
    let request = snapshot.request_at(place);
    let group = snapshot.group_at(place);
    let len = u64::from(snapshot.parts().len);
    Offer {
        request: request.request,
        is_of_and: snapshot.parts().groups.as_slice()[group].op.is_and(),
        value: request.value,
        fade: request.fade,
        earliest: slices_for(len, least_from(request.windows.as_slice())),
    }
}
