// The possible starts of one telescope, by slice.

ghost use Rattle.std.specs.Prelude.{◌≡◌, ◌+◌, ◌<◌, ◌≤◌, ℕ, [], length, All, Contains, IfOk, OnOk, IsTrue, ◌↔◌};
ghost use Rattle.plan_base.specs.Limits.{most_slices, most_first};
ghost use Rattle.plan_base.specs.Requests.{listed};
ghost use Rattle.plan_base.specs.Verdict.{IsPriceInRange};
ghost use Rattle.plan_base.specs.Tables.{row};
ghost use Rattle.bound_checker.specs.Offers.{IsOfferRange};
ghost use Rattle.bound_checker.specs.Sights.{IsClear};
ghost use Rattle.bound_checker.specs.Listings.{IsAdded, CanStart, IsListing, IsBefore};

use crate::sight::{Sight, find_views, stretch_in_sight};
use crate::table::Start;
use crate::worth::{Offer, offer_of, weight_at};
use plan_base::{ListOf, Parts, Prices, Snapshot, TelescopeNo};
use std::alloc::{AllocError, Global};

/// The possible starts of a telescope: row `k` has those at slice `k` of the horizon. Fails only for want of memory.
pub fn starts_of(
    alloc: Global,
    snapshot: &Snapshot,
    telescope: TelescopeNo,
    prices: &Prices,
) -> Result<Vec<ListOf<Start>>, AllocError>
    requires telescope { telescope.0 < length snapshot.now.telescopes }
    requires count { length prices.now.0 ≡ length (listed snapshot.now) }
    requires range { All IsPriceInRange prices.now.0 }
    ensures { IfOk result (λ rows. IsListing snapshot.now prices.now.0 telescope.0 (IsBefore snapshot.now (length (listed snapshot.now))) rows.items) }
{
    let mut rows = empty_rows(alloc, snapshot.parts().slices as usize)?;
    let mut views = Vec::new(alloc);
    for place in 0..snapshot.request_count() {
        list_request(snapshot, telescope, prices, place, &mut views, &mut rows)?;
    }
    Ok(rows)
}

/// So many rows without a start.
fn empty_rows(alloc: Global, count: usize) -> Result<Vec<ListOf<Start>>, AllocError>
    ensures count { IfOk result (λ rows. length rows.items ≡ count) }
    ensures empty { IfOk result (λ rows. (k : ℕ) → row rows.items k ≡ []) }
{
    let mut rows = Vec::with_capacity(alloc, count)?;
    while rows.len() < count {
        rows.push(ListOf::new(alloc))?;
    }
    Ok(rows)
}

/// Adds the starts of the request at a place.
fn list_request(
    snapshot: &Snapshot,
    telescope: TelescopeNo,
    prices: &Prices,
    place: usize,
    views: &mut Vec<usize>,
    rows: &mut Vec<ListOf<Start>>,
) -> Result<(), AllocError>
    requires telescope { telescope.0 < length snapshot.now.telescopes }
    requires count { length prices.now.0 ≡ length (listed snapshot.now) }
    requires range { All IsPriceInRange prices.now.0 }
    requires place { place < length (listed snapshot.now) }
    requires listing { IsListing snapshot.now prices.now.0 telescope.0 (IsBefore snapshot.now place) rows.old.items }
    ensures { OnOk result (IsListing snapshot.now prices.now.0 telescope.0 (IsBefore snapshot.now (place + 1)) rows.new.items) }
{
    let parts = snapshot.parts();
    let request = snapshot.request_at(place);
    if !has_telescope(request.telescopes.as_slice(), telescope) {
        return Ok(());
    }
    let part = &parts.telescopes.as_slice()[usize::from(telescope.0)];
    let skies = parts.skies.as_slice();
    if !find_views(skies, part.site, request.targets.as_slice(), views)? {
        return Ok(());
    }
    let sight = Sight {
        windows: request.windows.as_slice(),
        usable: part.usable.as_slice(),
        skies,
        views: views.as_slice(),
    };
    let offer = offer_of(parts.len, request, prices.0.as_slice()[place]);
    list_stretches(parts, &sight, &offer, rows)
}

/// Whether a telescope is in a list.
pub fn has_telescope(telescopes: &[TelescopeNo], telescope: TelescopeNo) -> bool
    ensures { IsTrue result ↔ Contains telescopes.now telescope }
{
    telescopes.contains(&telescope)
}

/// Adds the starts of an offer that are in sight.
fn list_stretches(
    parts: &Parts,
    sight: &Sight,
    offer: &Offer,
    rows: &mut Vec<ListOf<Start>>,
) -> Result<(), AllocError>
    requires first { parts.now.first.0 ≤ most_first }
    requires slices { parts.now.slices ≤ most_slices }
    requires clear { IsClear sight.now }
    requires offer { IsOfferRange offer.now }
    requires rows { length rows.old.items ≡ parts.now.slices }
    ensures { OnOk result (IsAdded offer.now parts.now.first.0 (CanStart parts.now sight.now offer.now) rows.old.items rows.new.items) }
{
    let first = u64::from(parts.first.0);
    let stop = (first + u64::from(parts.slices) + 1).saturating_sub(offer.size);
    let mut slice = first;
    while slice < stop {
        let stretch = stretch_in_sight(sight, offer.observation, slice);
        let end = stretch.end.min(stop);
        if stretch.fits {
            push_starts(rows, offer, first, slice, end)?;
        }
        slice = end;
    }
    Ok(())
}

/// Adds the starts of an offer at the slices from one to the one before another. The rows begin at the slice `first`.
fn push_starts(
    rows: &mut Vec<ListOf<Start>>,
    offer: &Offer,
    first: u64,
    from: u64,
    to: u64,
) -> Result<(), AllocError>
    requires offer { IsOfferRange offer.now }
    requires begins { first ≤ from }
    requires order { from ≤ to }
    requires ends { to ≤ first + length rows.old.items }
    ensures { OnOk result (IsAdded offer.now first (λ k. (from ≤ k) × (k < to)) rows.old.items rows.new.items) }
{
    for slice in from..to {
        let row = (slice - first) as usize;
        let start = Start {
            weight: weight_at(offer, slice),
            after: row + offer.size as usize,
        };
        rows[row].push(start)?;
    }
    Ok(())
}
