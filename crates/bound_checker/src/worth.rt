// What a request offers at each slice.

ghost use Rattle.std.specs.Prelude.{◌≡◌, ◌≤◌};
ghost use Rattle.plan_base.specs.Limits.{least_len, most_len};
ghost use Rattle.plan_base.specs.Verdict.{IsPriceInRange};
ghost use Rattle.plan_base.specs.Asked.{IsAsked};
ghost use Rattle.bound_checker.specs.Offers.{IsOfferRange, IsOffer, offer_weight};

use crate::stretches::Observation;
use plan_base::{RequestPart, faded, least_from, slices_for};

/// What a request asks for, and what it gives.
#[derive(Clone, Copy)]
pub struct Offer {
    /// How long it observes.
    pub observation: Observation,
    /// How many slices it takes, 1 to 1,440.
    pub size: u64,
    /// The price of the request, -10^12 to 10^12.
    pub price: i64,
    /// What it is worth before any of it fades, at most 288,000,000.
    pub value: u64,
    /// The thousandths, 0 to 1,000, that are lost with each slice of delay.
    pub fade: u64,
    /// The slice from which it fades.
    pub earliest: u64,
}

/// What a request offers at a price.
pub fn offer_of(len: u32, request: &RequestPart, price: i64) -> Offer
    requires least { least_len ≤ len }
    requires most { len ≤ most_len }
    requires asked { IsAsked request.now }
    requires price { IsPriceInRange price }
    ensures range { IsOfferRange result }
    ensures offer { IsOffer len request.now price result }
{
    let len = u64::from(len);
    let seconds = u64::from(request.seconds);
    Offer {
        observation: Observation { len, seconds },
        size: slices_for(len, seconds),
        price,
        value: u64::from(request.value),
        fade: u64::from(request.fade),
        earliest: slices_for(len, least_from(request.windows.as_slice())),
    }
}

/// What the request is worth beyond its price if it begins at a slice.
pub fn weight_at(offer: &Offer, slice: u64) -> i64
    requires { IsOfferRange offer.now }
    ensures { result ≡ offer_weight offer.now slice }
{
    let delay = slice.saturating_sub(offer.earliest);
    faded(offer.value, offer.fade, delay) as i64 - offer.price
}
