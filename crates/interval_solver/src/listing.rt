// The possible starts of one telescope, by slice.

ghost use Rattle.std.specs.Prelude.{◌≡◌, ◌+◌, ◌<◌, ◌≤◌, ℕ, [], length, HoldsAt, IfOk, OnOk};
ghost use Rattle.plan_base.specs.Limits.{most_slices};
ghost use Rattle.plan_base.specs.Starts.{IsPossibleStart};
ghost use Rattle.snapshot_starts.specs.Runs.{AreAllStarts};
ghost use Rattle.plan_base.specs.Tables.{row};
ghost use Rattle.interval_solver.specs.Offers.{IsOfferRange};
ghost use Rattle.interval_solver.specs.Listings.{AreAdded, AreAllRuns, IsOfFirst, IsListing};

use crate::offer::{Offer, offer_of, worth_at};
use crate::row_list::RowList;
use crate::start::Start;
use plan_base::{ListOf, Snapshot, TelescopeNo};
use snapshot_starts::{Run, Starts};
use std::alloc::{AllocError, Global};

/// The possible starts of a telescope: row `k` has those at slice `k` of the horizon, by the places of their requests.
/// Fails only for want of memory.
pub(crate) fn list_starts(
    alloc: Global,
    snapshot: &Snapshot,
    telescope: TelescopeNo,
    starts: &Starts,
) -> Result<RowList, AllocError>
    requires { AreAllStarts snapshot.now starts.now }
    ensures { IfOk result (λ rows. IsListing snapshot.now telescope.0 (IsPossibleStart snapshot.now) rows) }
{
    let rows = rows_of(alloc, snapshot, telescope, starts)?;
    joined(alloc, rows.as_slice())
}

/// The rows one after another in one list.
fn joined(alloc: Global, rows: &[ListOf<Start>]) -> Result<RowList, AllocError>
    ensures { IfOk result (λ list. list ≡ rows.now) }
{
    let mut list = RowList::new(alloc)?;
    for row in rows {
        list.push(row.as_slice())?;
    }
    Ok(list)
}

/// The possible starts of a telescope, with a list of its own for each row.
fn rows_of(
    alloc: Global,
    snapshot: &Snapshot,
    telescope: TelescopeNo,
    starts: &Starts,
) -> Result<Vec<ListOf<Start>>, AllocError>
    requires { AreAllStarts snapshot.now starts.now }
    ensures { IfOk result (λ rows. IsListing snapshot.now telescope.0 (IsPossibleStart snapshot.now) rows.items) }
{
    let mut rows = empty_rows(alloc, snapshot.parts().slices as usize)?;
    let runs = starts.runs();
    for place in 0..runs.len() {
        list_run(snapshot, telescope, runs, place, runs[place], &mut rows)?;
    }
    Ok(rows)
}

/// So many rows without a start.
fn empty_rows(alloc: Global, count: usize) -> Result<Vec<ListOf<Start>>, AllocError>
    ensures count { IfOk result (λ rows. length rows.items ≡ count) }
    ensures empty { IfOk result (λ rows. (k : ℕ) → row rows.items k ≡ []) }
{
    let mut rows = Vec::with_capacity(alloc, count)?;
    while rows.len() < count {
        rows.push(ListOf::new(alloc))?;
    }
    Ok(rows)
}

/// Adds the starts of the run, which is the one at a place, if it is one of the telescope.
fn list_run(
    snapshot: &Snapshot,
    telescope: TelescopeNo,
    runs: &[Run],
    place: usize,
    run: Run,
    rows: &mut Vec<ListOf<Start>>,
) -> Result<(), AllocError>
    requires runs { AreAllRuns snapshot.now runs.now }
    requires place { place < length runs.now }
    requires run { HoldsAt (λ x. x ≡ run) runs.now place }
    requires listing { IsListing snapshot.now telescope.0 (IsOfFirst runs.now place) rows.old.items }
    ensures { OnOk result (IsListing snapshot.now telescope.0 (IsOfFirst runs.now (place + 1)) rows.new.items) }
{
    if run.telescope.0 != telescope.0 {
        return Ok(());
    }
    let parts = snapshot.parts();
    let Some(request) = snapshot.place_of(run.request) else {
        return Ok(());
    };
    snapshot.recall_valid();
    let offer = offer_of(parts.len, request as u32, snapshot.request_at(request));
    let from = u64::from(run.first.0);
    let to = from + u64::from(run.count);
    push_starts(rows, &offer, u64::from(parts.first.0), from, to)
}

/// Adds the starts of an offer at the slices from one to the one before another. The rows begin at the slice `first`.
fn push_starts(
    rows: &mut Vec<ListOf<Start>>,
    offer: &Offer,
    first: u64,
    from: u64,
    to: u64,
) -> Result<(), AllocError>
    requires offer { IsOfferRange offer.now }
    requires begins { first ≤ from }
    requires order { from ≤ to }
    requires ends { to ≤ first + length rows.old.items }
    requires few { length rows.old.items ≤ most_slices }
    ensures { OnOk result (AreAdded offer.now first from to rows.old.items rows.new.items) }
{
    for slice in from..to {
        let row = slice - first;
        let start = Start {
            worth: worth_at(offer, slice),
            place: offer.place as u16,
            after: (row + offer.size) as u16,
        };
        rows[row as usize].push(start)?;
    }
    Ok(())
}
