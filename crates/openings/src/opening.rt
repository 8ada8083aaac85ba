// Where a request may start.

ghost use Rattle.std.specs.Prelude.{◌≡◌, ◌+◌, ◌<◌, ◌≤◌, ◌++◌, length, replicate, All, IfOk, OnOk};
ghost use Rattle.plan_base.specs.Limits.{most_slices, most_first};
ghost use Rattle.plan_base.specs.Requests.{listed, IsKnown};
ghost use Rattle.plan_base.specs.Verdict.{IsPriceInRange};
ghost use Rattle.bound_checker.specs.Offers.{IsOfferRange};
ghost use Rattle.bound_checker.specs.Sights.{IsClear};
ghost use Rattle.bound_checker.specs.Listings.{CanStart};
ghost use Rattle.openings.specs.Openings.{IsOfferOf, IsFlagged, IsOpenRow, AreOpenings};

use bound_checker::{Offer, Sight, find_views, has_telescope, offer_of, stretch_in_sight};
use plan_base::{ListOf, Parts, Prices, RequestNo, Snapshot, TelescopeNo};
use std::alloc::{AllocError, Global};

/// A request, what it offers at a price, and where it may start.
pub struct Openings {
    /// The number of the request.
    pub request: RequestNo,
    /// What it takes, and what it is worth beyond its price.
    pub offer: Offer,
    /// A row for each telescope, with a flag for each slice of the horizon that says whether the request may start
    /// there. A flag that a row lacks isn't set.
    pub rows: Vec<ListOf<bool>>,
}

impl Drop for Openings {
    fn drop(self) {
        let Self {
            request: _,
            offer: _,
            rows: _,
        } = self;
    }
}

/// The openings of a request that the snapshot has, at prices that there is one of for each request, from -10^12 to 10^12.
/// It costs time for the windows and spans of the request's telescopes, and for the slices of these. Fails only for want of
/// memory.
pub fn openings_of(
    alloc: Global,
    snapshot: &Snapshot,
    prices: &Prices,
    request: RequestNo,
) -> Result<Openings, AllocError>
    requires request { IsKnown snapshot.now request.0 }
    requires count { length prices.now.0 ≡ length (listed snapshot.now) }
    requires range { All IsPriceInRange prices.now.0 }
    ensures openings { IfOk result (AreOpenings snapshot.now prices.now.0) }
    ensures request { IfOk result (λ openings. openings.request ≡ request) }
{
    let offer = offer_at(snapshot, prices, request);
    let mut rows = Vec::with_capacity(alloc, snapshot.parts().telescopes.len())?;
    let mut views = Vec::new(alloc);
    for telescope in 0..snapshot.parts().telescopes.len() {
        snapshot.recall_valid();
        let number = TelescopeNo(telescope as u16);
        rows.push(row_of(alloc, snapshot, prices, request, number, &mut views)?)?;
    }
    Ok(Openings {
        request,
        offer,
        rows,
    })
}

/// What a request offers.
fn offer_at(snapshot: &Snapshot, prices: &Prices, request: RequestNo) -> Offer
    requires request { IsKnown snapshot.now request.0 }
    requires count { length prices.now.0 ≡ length (listed snapshot.now) }
    requires range { All IsPriceInRange prices.now.0 }
    ensures { IsOfferOf snapshot.now prices.now.0 request.0 result }
{
    snapshot.recall_valid();
    let place = snapshot.known_place(request);
    let price = prices.0.as_slice()[place];
    offer_of(snapshot.parts().len, snapshot.request_at(place), price)
}

/// The row of a telescope. Fails only for want of memory.
fn row_of(
    alloc: Global,
    snapshot: &Snapshot,
    prices: &Prices,
    request: RequestNo,
    telescope: TelescopeNo,
    views: &mut Vec<usize>,
) -> Result<ListOf<bool>, AllocError>
    requires request { IsKnown snapshot.now request.0 }
    requires count { length prices.now.0 ≡ length (listed snapshot.now) }
    requires range { All IsPriceInRange prices.now.0 }
    requires telescope { telescope.0 < length snapshot.now.telescopes }
    ensures { IfOk result (IsOpenRow snapshot.now telescope.0 request.0) }
{
    let parts = snapshot.parts();
    let place = snapshot.known_place(request);
    let asked = snapshot.request_at(place);
    if !has_telescope(asked.telescopes.as_slice(), telescope) {
        return Ok(ListOf::new(alloc));
    }
    let part = &parts.telescopes.as_slice()[usize::from(telescope.0)];
    let skies = parts.skies.as_slice();
    if !find_views(skies, part.site, asked.targets.as_slice(), views)? {
        return Ok(ListOf::new(alloc));
    }
    let sight = Sight {
        windows: asked.windows.as_slice(),
        usable: part.usable.as_slice(),
        skies,
        views: views.as_slice(),
    };
    let offer = offer_of(parts.len, asked, prices.0.as_slice()[place]);
    flags_of(alloc, parts, &sight, &offer)
}

/// For each slice of the horizon whether an offer in sight may start there. Fails only for want of memory.
fn flags_of(
    alloc: Global,
    parts: &Parts,
    sight: &Sight,
    offer: &Offer,
) -> Result<ListOf<bool>, AllocError>
    requires first { parts.now.first.0 ≤ most_first }
    requires slices { parts.now.slices ≤ most_slices }
    requires clear { IsClear sight.now }
    requires offer { IsOfferRange offer.now }
    ensures { IfOk result (IsFlagged (λ i. CanStart parts.now sight.now offer.now (parts.now.first.0 + i)) parts.now.slices) }
{
    let first = u64::from(parts.first.0);
    let stop = (first + u64::from(parts.slices) + 1).saturating_sub(offer.size);
    let mut flags = Vec::with_capacity(alloc, parts.slices as usize)?;
    let mut slice = first;
    while slice < stop {
        let stretch = stretch_in_sight(sight, offer.observation, slice);
        let end = stretch.end.min(stop);
        push_flags(&mut flags, stretch.fits, end - slice)?;
        slice = end;
    }
    Ok(ListOf::from_vec(flags))
}

/// Adds a flag so many times.
fn push_flags(flags: &mut Vec<bool>, flag: bool, count: u64) -> Result<(), AllocError>
    ensures { OnOk result (flags.new.items ≡ flags.old.items ++ replicate count flag) }
{
    for _ in 0..count {
        flags.push(flag)?;
    }
    Ok(())
}
