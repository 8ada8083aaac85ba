// How holds are booked.

ghost use Rattle.std.specs.Prelude.{◌≡◌, ◌≢◌, ◌+◌, ◌++◌, ◌<◌, ◌≤◌, [], ℕ, Some, None, All, IfSome, IfErr, OnOk, OnErr, length, map, slice_set};
ghost use Rattle.std.specs.BTreeSet.{replace_key};
ghost use Rattle.allocations.specs.declared.entry.EntryKind.TheVariants.{Charge};
ghost use Rattle.allocations.specs.declared.posting.GroupState.{GroupState};
ghost use Rattle.allocations.specs.Key.{key_cmp};
ghost use Rattle.allocations.specs.Rising.{Rises};
ghost use Rattle.allocations.specs.Amounts.{amount_at};
ghost use Rattle.allocations.specs.Raw.{posted, held_at};
ghost use Rattle.allocations.specs.declared.key.Account.TheVariants.{Ipp};
ghost use Rattle.allocations.specs.declared.fault.LedgerFault.TheVariants.{NoMemory};
ghost use Rattle.allocations.specs.Books.{total_seconds};
ghost use Rattle.allocations.specs.Changes.{booked};
ghost use Rattle.allocations.specs.Refusals.{refusal_of};
ghost use Rattle.allocations.specs.Store.{group_at, given_at, amount_keys, CanHold, IsSound, IsGranted, freed_store, freed_books, store_books};
ghost use Rattle.allocations.specs.Booking.{state_cmp, HoldsNothing, standing_of, charges_of, booked_groups};

use crate::asking::{Booking, booking_for};
use crate::entry::{EntryKind, Hold};
use crate::fault::LedgerFault;
use crate::ledger::MOST_SECONDS_IN_ALL;
use crate::posting::Posting;
use crate::store::Store;
use plan_base::{GroupNo, RequestNo};
use std::alloc::Global;

/// Where a group stands, which is added where it isn't there.
fn open_group(store: &mut Store, alloc: Global, group: GroupNo) -> usize
    requires slot { 0 < store.old.slots }
    requires nothing { HoldsNothing group store.old.groups }
    ensures rest { store.new ≡ record store.old { groups = store.new.groups; slots = store.new.slots } }
    ensures within { result < length store.new.groups }
    ensures state { group_at store.new.groups result ≡ record { group = group; holds = []; ipp = standing_of group store.old.groups } }
    ensures puts { (g : GroupState) → g.group ≡ group → slice_set store.new.groups result g ≡ replace_key state_cmp store.old.groups g }
    ensures held { (i : ℕ) → held_at i store.new.groups ≡ held_at i store.old.groups }
{
    match store.group_index(group) {
        Ok(index) => index,
        Err(index) => {
            store.open(alloc, index, group);
            index
        }
    }
}

/// Charges a group that holds nothing, and gives it what it holds from now on.
pub(crate) fn book_group(store: &mut Store, alloc: Global, group: GroupNo, booking: Booking)
    requires slot { 0 < store.old.slots }
    requires spare { 0 < store.old.spare }
    requires nothing { HoldsNothing group store.old.groups }
    requires places { All (λ m. m.account < length store.old.keys) booking.holds }
    requires rising { Rises key_cmp (amount_keys store.old.keys booking.holds) }
    requires ipp_place { IfSome booking.ipp (λ m. m.account < length store.old.keys) }
    requires room { CanHold store.old booking.holds }
    requires ipp_room { IfSome booking.ipp (λ m. held_at m.account store.old.groups + amount_at m.account booking.holds
        + posted Charge m.account store.old.postings + m.seconds ≤ given_at m.account store.old.postings) }
    ensures { store.new ≡ record store.old {
      postings = store.old.postings ++ charges_of group booking.ipp;
      groups = booked_groups group booking.holds booking.ipp store.old.groups;
      spare = store.new.spare;
      slots = store.new.slots;
    } }
{
    let Booking { holds, ipp } = booking;
    let index = open_group(store, alloc, group);
    store.book(index, holds);
    if let Some(amount) = ipp {
        store.set_ipp(index, ipp);
        store.post(Posting {
            account: amount.account,
            kind: EntryKind::Charge,
            seconds: amount.seconds,
            group,
            request: RequestNo(0),
        });
    }
}

/// Frees the group at `old`, if one is named.
fn free_old(store: &mut Store, alloc: Global, old: Option<usize>)
    requires sound { IsSound store.old }
    requires old { IfSome old (λ j. j < length store.old.groups) }
    requires spare { 0 < store.old.spare }
    requires bound { total_seconds (freed_books store.old old) ≤ MOST_SECONDS_IN_ALL }
    ensures freed { store.new ≡ record (freed_store store.old old) { spare = store.new.spare } }
    ensures spare { store.old.spare ≤ store.new.spare + 1 }
    ensures sound { IsSound store.new }
{
    if let Some(index) = old {
        store.free(alloc, index);
    }
}

/// Books holds and an ipp charge for a group that holds nothing, once the group at `old` is freed. An error changes
/// nothing of the books.
pub(crate) fn settle(
    store: &mut Store,
    alloc: Global,
    old: Option<usize>,
    group: GroupNo,
    holds: &[Hold],
    ipp: u64,
) -> Result<(), LedgerFault>
    requires some { 0 < length holds.now }
    requires rising { Rises key_cmp (map (λ h. h.key) holds.now) }
    requires not_ipp { All (λ h. h.key.account ≢ Ipp) holds.now }
    requires old { IfSome old (λ j. j < length store.old.groups) }
    requires nothing { HoldsNothing group store.old.groups }
    requires granted { IsGranted store.old }
    requires bound { total_seconds (freed_books store.old old) ≤ MOST_SECONDS_IN_ALL }
    ensures booked { OnOk result (store_books store.new ≡ booked group holds.now ipp (freed_books store.old old)) }
    ensures accounts { OnOk result ((store.new.keys ≡ store.old.keys) × (store.new.listed ≡ store.old.listed)) }
    ensures given { OnOk result (refusal_of (freed_books store.old old) holds.now ipp ≡ None) }
    ensures refused { IfErr result (λ fault. fault ≢ NoMemory → refusal_of (freed_books store.old old) holds.now ipp ≡ Some fault) }
    ensures unchanged { OnErr result (store.new ≡ record store.old { spare = store.new.spare; slots = store.new.slots }) }
{
    let booking = booking_for(alloc, store, old, holds, ipp)?;
    store.reserve(2)?;
    store.make_slot()?;
    free_old(store, alloc, old);
    book_group(store, alloc, group, booking);
    Ok(())
}
