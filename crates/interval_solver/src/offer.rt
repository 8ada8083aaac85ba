// What a request offers at each slice.

ghost use Rattle.std.specs.Prelude.{◌≡◌, ◌≤◌, All};
ghost use Rattle.plan_base.specs.Limits.{most_seconds, most_value, least_len, most_len, most_pending, most_fade};
ghost use Rattle.plan_base.specs.Snapshot.{IsMoment};
ghost use Rattle.interval_solver.specs.Offers.{IsOfferRange, IsOffer, offer_worth};

use plan_base::{RequestPart, faded, least_from, slices_for};

/// What a request gives, and how many slices it takes for it.
#[derive(Clone, Copy)]
pub(crate) struct Offer {
    /// The place of the request among all, from 0.
    pub place: u32,
    /// How many slices it takes, at most 1,440.
    pub size: u64,
    /// What it is worth before any of it fades, at most 288,000,000.
    pub value: u64,
    /// The thousandths, 0 to 1,000, that are lost with each slice of delay.
    pub fade: u64,
    /// The slice from which it fades.
    pub earliest: u64,
}

/// What the request at a place offers.
pub(crate) fn offer_of(len: u32, place: u32, request: &RequestPart) -> Offer
    requires least { least_len ≤ len }
    requires most { len ≤ most_len }
    requires place { place ≤ most_pending }
    requires seconds { request.now.seconds ≤ most_seconds }
    requires value { request.now.value ≤ most_value }
    requires fade { request.now.fade ≤ most_fade }
    requires moments { All (λ w. IsMoment w.from.0) request.now.windows }
    ensures range { IsOfferRange result }
    ensures offer { IsOffer len request.now place result }
{
    let len = u64::from(len);
    Offer {
        place,
        size: slices_for(len, u64::from(request.seconds)),
        value: u64::from(request.value),
        fade: u64::from(request.fade),
        earliest: slices_for(len, least_from(request.windows.as_slice())),
    }
}

/// What the request is worth if it begins at a slice.
pub(crate) fn worth_at(offer: &Offer, slice: u64) -> u32
    requires { IsOfferRange offer.now }
    ensures { result ≡ offer_worth offer.now slice }
{
    let delay = slice.saturating_sub(offer.earliest);
    faded(offer.value, offer.fade, delay) as u32
}
