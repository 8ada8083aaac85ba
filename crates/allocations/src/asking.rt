// Where holds are to be booked, or why they are refused.

ghost use Rattle.std.specs.Prelude.{◌≡◌, ◌≢◌, ◌<◌, ◌≤◌, Some, None, All, IfSome, IsSomeAnd, Ok, IfOk, IfErr, OnOk, length, map};
ghost use Rattle.allocations.specs.declared.fault.LedgerFault.TheVariants.{NoMemory};
ghost use Rattle.allocations.specs.Books.{total_seconds};
ghost use Rattle.allocations.specs.Raw.{hold_of};
ghost use Rattle.allocations.specs.Asked.{IsBookingFor};
ghost use Rattle.allocations.specs.Refusals.{refusal_at, first_refusal, refusal_of, ipp_key};
ghost use Rattle.allocations.specs.Store.{freed_books, left_after, IsGranted, StandsFor};

use crate::entry::Hold;
use crate::fault::LedgerFault;
use crate::key::Key;
use crate::ledger::MOST_SECONDS_IN_ALL;
use crate::store::Store;
use crate::sums::Amount;
use plan_base::{ListOf, Name};
use std::alloc::Global;

/// The amount of an account for a need, tested against what is left once the group at `old` is freed.
pub(crate) fn amount_for(
    store: &Store,
    old: Option<usize>,
    key: &Key,
    needed: u64,
) -> Result<Amount, LedgerFault>
    requires old { IfSome old (λ j. j < length store.now.groups) }
    requires granted { IsGranted store.now }
    requires bound { total_seconds (freed_books store.now old) ≤ MOST_SECONDS_IN_ALL }
    ensures stands { IfOk result (λ m. StandsFor store.now m record { key = key.now; seconds = needed }) }
    ensures fits { IfOk result (λ m. m.seconds ≤ left_after store.now old m.account) }
    ensures given { OnOk result (refusal_at (freed_books store.now old) record { key = key.now; seconds = needed } ≡ None) }
    ensures refused { IfErr result (λ fault. refusal_at (freed_books store.now old) record { key = key.now; seconds = needed } ≡ Some fault) }
{
    let account = match store.find(key) {
        Ok(place) => place,
        Err(_) => {
            return Err(LedgerFault::NoSuchAllocation {
                account: key.account,
            });
        }
    };
    let available = store.available(account, old);
    if needed > available {
        return Err(LedgerFault::NotEnoughTime { needed, available });
    }
    Ok(Amount {
        account,
        seconds: needed,
    })
}

/// The amounts for holds, each tested in order.
pub(crate) fn amounts_for(
    alloc: Global,
    store: &Store,
    old: Option<usize>,
    holds: &[Hold],
) -> Result<ListOf<Amount>, LedgerFault>
    requires old { IfSome old (λ j. j < length store.now.groups) }
    requires granted { IsGranted store.now }
    requires bound { total_seconds (freed_books store.now old) ≤ MOST_SECONDS_IN_ALL }
    ensures places { IfOk result (All (λ m. m.account < length store.now.keys)) }
    ensures stand { IfOk result (λ ms. map (hold_of store.now.keys) ms ≡ holds.now) }
    ensures fit { IfOk result (All (λ m. m.seconds ≤ left_after store.now old m.account)) }
    ensures given { OnOk result (first_refusal (freed_books store.now old) holds.now ≡ None) }
    ensures refused { IfErr result (λ fault. fault ≢ NoMemory → first_refusal (freed_books store.now old) holds.now ≡ Some fault) }
{
    let mut amounts = Vec::with_capacity(alloc, holds.len())?;
    for hold in holds {
        let amount = amount_for(store, old, &hold.key, hold.seconds)?;
        amounts.push(amount)?;
    }
    Ok(ListOf::from_vec(amounts))
}

/// What a group is to hold, and its ipp charge where there is one.
#[derive(Drop)]
pub(crate) struct Booking {
    /// The seconds of each account that it is to hold.
    pub holds: ListOf<Amount>,
    /// The seconds that its proposal's ipp account is charged, if any.
    pub ipp: Option<Amount>,
}

/// The amount of a proposal's ipp account, where one is asked for.
fn ipp_amount_for(
    alloc: Global,
    store: &Store,
    old: Option<usize>,
    proposal: &Name,
    ipp: u64,
) -> Result<Option<Amount>, LedgerFault>
    requires old { IfSome old (λ j. j < length store.now.groups) }
    requires granted { IsGranted store.now }
    requires bound { total_seconds (freed_books store.now old) ≤ MOST_SECONDS_IN_ALL }
    ensures none { OnOk result (0 ≡ ipp → result ≡ Ok None) }
    ensures stands { IfOk result (λ o. 0 < ipp → IsSomeAnd o (λ m. StandsFor store.now m record { key = ipp_key proposal.now; seconds = ipp })) }
    ensures fits { IfOk result (λ o. IfSome o (λ m. m.seconds ≤ left_after store.now old m.account)) }
    ensures given { OnOk result (0 < ipp → refusal_at (freed_books store.now old) record { key = ipp_key proposal.now; seconds = ipp } ≡ None) }
    ensures refused { IfErr result (λ fault. fault ≢ NoMemory → (0 < ipp)
        × (refusal_at (freed_books store.now old) record { key = ipp_key proposal.now; seconds = ipp } ≡ Some fault)) }
{
    if ipp == 0 {
        return Ok(None);
    }
    let key = Key::ipp(alloc, proposal)?;
    let amount = amount_for(store, old, &key, ipp)?;
    Ok(Some(amount))
}

/// The amounts for holds of one proposal and its ipp charge, tested against what is left once the group at `old` is
/// freed.
pub(crate) fn booking_for(
    alloc: Global,
    store: &Store,
    old: Option<usize>,
    holds: &[Hold],
    ipp: u64,
) -> Result<Booking, LedgerFault>
    requires some { 0 < length holds.now }
    requires old { IfSome old (λ j. j < length store.now.groups) }
    requires granted { IsGranted store.now }
    requires bound { total_seconds (freed_books store.now old) ≤ MOST_SECONDS_IN_ALL }
    ensures booking { IfOk result (IsBookingFor store.now old holds.now ipp) }
    ensures given { OnOk result (refusal_of (freed_books store.now old) holds.now ipp ≡ None) }
    ensures refused { IfErr result (λ fault. fault ≢ NoMemory → refusal_of (freed_books store.now old) holds.now ipp ≡ Some fault) }
{
    let proposal = &holds[0].key.proposal;
    if !store.knows(proposal) {
        return Err(LedgerFault::NoSuchProposal);
    }
    let holds = amounts_for(alloc, store, old, holds)?;
    let ipp = ipp_amount_for(alloc, store, old, proposal, ipp)?;
    Ok(Booking { holds, ipp })
}
