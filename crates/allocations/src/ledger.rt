// The ledger on which proposals are charged.

ghost use Rattle.std.specs.Prelude.{◌≡◌, ◌≢◌, ◌+◌, ◌-◌, ◌<◌, ◌≤◌, ◌∷◌, ◌++◌, ◌↔◌, [], if◌then◌else◌, Some, None};
ghost use Rattle.std.specs.Prelude.{Contains, IsTrue, IfSome, IfOk, IfErr, OnOk, OnErr, map, slice_get, option_copied};
ghost use Rattle.plan_base.specs.Limits.{most_accounts};
ghost use Rattle.allocations.specs.declared.entry.EntryKind.TheVariants.{Grant, Charge, Refund};
ghost use Rattle.allocations.specs.declared.fault.LedgerFault.TheVariants.{Full, NoMemory};
ghost use Rattle.allocations.specs.declared.fault.FullOf.TheVariants.{Accounts};
ghost use Rattle.allocations.specs.Key.{key_cmp};
ghost use Rattle.allocations.specs.Rising.{Rises};
ghost use Rattle.allocations.specs.Books.{has_grant, balance_of, held_of, available_of, accounts_of, seconds_of, total_seconds};
ghost use Rattle.allocations.specs.Changes.{grant_entry, request_entry, refund_entry, with_entry, ipp_of, released, refunded, freed, booked};
ghost use Rattle.allocations.specs.Refusals.{refusal_of};
ghost use Rattle.allocations.specs.Ledger.{IsFull, IsHoldList, IsFree, IsAtMost, seconds_of_holds};

use crate::booking::settle;
use crate::entry::{EntryKind, Hold};
use crate::fault::LedgerFault;
use crate::granting::grant;
use crate::key::Key;
use crate::lowering::lowered;
use crate::posting::Posting;
use crate::store::Store;
use plan_base::{GroupNo, RequestNo};
use std::alloc::{AllocError, Global};
use std::marker::Model;

/// The most seconds of all entries and holds together. The specs of the desk write `10 ^ 18` for it.
pub const MOST_SECONDS_IN_ALL: u64 = 1_000_000_000_000_000_000;

/// Grants, charges and refunds of the accounts of proposals, and what groups hold of them. A call costs what it touches,
/// however many entries there are. The seconds of all entries and holds, with those that a call adds, add up to at most
/// `MOST_SECONDS_IN_ALL`.
pub struct Ledger {
    store: Store,
    alloc: Global,
}

impl Drop for Ledger {
    fn drop(self) {
        let Self { store: _, alloc: _ } = self;
    }
}

impl Model for Ledger {
    ghost use Rattle.allocations.specs.Ledger.{LedgerSeen};

    ghost Value = { LedgerSeen };

    ghost use Rattle.allocations.specs.LedgerInside.{seen_ledger, IsLedger};

    ghost view = { seen_ledger };

    ghost invariant = { IsLedger };
}

impl Ledger {
    /// A ledger with no account. It takes no memory.
    pub fn new(alloc: Global) -> Self
        ensures { result.books ≡ record { entries = []; holds = [] } }
    {
        Ledger {
            store: Store::new(alloc),
            alloc,
        }
    }

    /// Grants seconds to an account, and answers its balance. `Full` comes where the account is new and there are
    /// `MOST_ACCOUNTS`.
    pub fn grant(&mut self, key: &Key, seconds: u64) -> Result<u64, LedgerFault>
        requires { total_seconds self.old.books + seconds ≤ MOST_SECONDS_IN_ALL }
        ensures books { OnOk result (self.new.books ≡ with_entry (grant_entry key.now seconds) self.old.books) }
        ensures balance { IfOk result (λ balance. balance ≡ balance_of self.new.books.entries key.now) }
        ensures fits { OnOk result (¬ (IsFull most_accounts self.old.books.entries key.now)) }
        ensures full { IfErr result (λ fault. fault ≢ NoMemory → (fault ≡ Full most_accounts Accounts) × IsFull most_accounts self.old.books.entries key.now) }
        ensures unchanged { OnErr result (self.new.books ≡ self.old.books) }
    {
        grant(&mut self.store, key, seconds)
    }

    /// An account's grants less its charges plus its refunds, none where it has no grant.
    pub fn balance(&self, key: &Key) -> Option<u64>
        ensures balance { result ≡ (if has_grant self.now.books.entries key.now then Some (balance_of self.now.books.entries key.now) else None) }
        ensures sums { let entries = self.now.books.entries in
            IfSome result (λ balance. balance + seconds_of Charge key.now entries ≡ seconds_of Grant key.now entries + seconds_of Refund key.now entries) }
    {
        match self.store.find(key) {
            Ok(place) => Some(self.store.sums(place).balance),
            Err(_) => None,
        }
    }

    /// An account's balance less all holds, none where it has no grant.
    pub fn available(&self, key: &Key) -> Option<u64>
        ensures available { result ≡ (if has_grant self.now.books.entries key.now then Some (available_of self.now.books key.now) else None) }
        ensures covered { IfSome result (λ available. available + held_of self.now.books.holds key.now ≡ balance_of self.now.books.entries key.now) }
    {
        match self.store.find(key) {
            Ok(place) => {
                let sums = self.store.sums(place);
                Some(sums.balance - sums.held)
            }
            Err(_) => None,
        }
    }

    /// The accounts with a grant, in the order of keys: proposal, account, instrument type. None where the index isn't
    /// below their number.
    pub fn account(&self, index: usize) -> Option<&Key>
        ensures account { option_copied result ≡ slice_get (accounts_of self.now.books.entries) index }
        ensures rising { Rises key_cmp (accounts_of self.now.books.entries) }
        ensures complete { (key : Key) → Contains (accounts_of self.now.books.entries) key ↔ IsTrue (has_grant self.now.books.entries key) }
    {
        self.store.account(index)
    }

    /// Holds seconds for a group that holds none, and charges it `ipp` seconds of its proposal's ipp account where they are
    /// above 0. There is at least one hold, in rising order of the accounts, which are of one proposal and not its ipp
    /// account. The refusal is `NoSuchProposal` where no account of the proposal has a grant; otherwise the first one of the holds, in
    /// their order, and then of the ipp account: `NoSuchAllocation` where the account has no grant, `NotEnoughTime` where
    /// more is needed than is available.
    pub fn hold(&mut self, group: GroupNo, holds: &[Hold], ipp: u64) -> Result<(), LedgerFault>
        requires holds { IsHoldList holds.now }
        requires free { IsFree group self.old.books.holds }
        requires bound { total_seconds self.old.books + seconds_of_holds holds.now + ipp ≤ MOST_SECONDS_IN_ALL }
        ensures booked { OnOk result (self.new.books ≡ booked group holds.now ipp self.old.books) }
        ensures given { OnOk result (refusal_of self.old.books holds.now ipp ≡ None) }
        ensures refused { IfErr result (λ fault. fault ≢ NoMemory → refusal_of self.old.books holds.now ipp ≡ Some fault) }
        ensures unchanged { OnErr result (self.new.books ≡ self.old.books) }
    {
        settle(&mut self.store, self.alloc, None, group, holds, ipp)
    }

    /// Ends what the group `old` holds, refunds its ipp charge where that stands, and then does what `hold` does for
    /// `group`, on its conditions, or nothing. The refusals are those of `hold` over the seconds so freed.
    pub fn replace(
        &mut self,
        old: GroupNo,
        group: GroupNo,
        holds: &[Hold],
        ipp: u64,
    ) -> Result<(), LedgerFault>
        requires holds { IsHoldList holds.now }
        requires free { IsFree group self.old.books.holds }
        requires bound { total_seconds (freed old self.old.books) + seconds_of_holds holds.now + ipp ≤ MOST_SECONDS_IN_ALL }
        ensures booked { OnOk result (self.new.books ≡ booked group holds.now ipp (freed old self.old.books)) }
        ensures given { OnOk result (refusal_of (freed old self.old.books) holds.now ipp ≡ None) }
        ensures refused { IfErr result (λ fault. fault ≢ NoMemory → refusal_of (freed old self.old.books) holds.now ipp ≡ Some fault) }
        ensures unchanged { OnErr result (self.new.books ≡ self.old.books) }
    {
        let index = self.store.find_group(old);
        settle(&mut self.store, self.alloc, index, group, holds, ipp)
    }

    /// Makes room for entries, which `charge` and `refund` need. Fails only for want of memory.
    pub fn reserve(&mut self, entries: u32) -> Result<(), AllocError>
        ensures spare { OnOk result (entries ≤ self.new.spare) }
        ensures least { self.old.spare ≤ self.new.spare }
        ensures books { self.new.books ≡ self.old.books }
    {
        self.store.reserve(entries as usize)
    }

    /// Charges an account, which has a grant, seconds that a request has used, at most what is available. It takes no memory,
    /// but one entry of the room that was made.
    pub fn charge(&mut self, key: &Key, seconds: u64, group: GroupNo, request: RequestNo)
        requires granted { IsTrue (has_grant self.old.books.entries key.now) }
        requires available { seconds ≤ available_of self.old.books key.now }
        requires spare { 0 < self.old.spare }
        requires bound { total_seconds self.old.books + seconds ≤ MOST_SECONDS_IN_ALL }
        ensures books { self.new.books ≡ with_entry (request_entry key.now seconds group request) self.old.books }
        ensures spare { self.new.spare + 1 ≡ self.old.spare }
    {
        let account = match self.store.find(key) {
            Ok(place) => place,
            Err(_) => unreachable!(),
        };
        self.store.post(Posting {
            account,
            kind: EntryKind::Charge,
            seconds,
            group,
            request,
        });
    }

    /// Lowers what the group holds to these seconds, by rising keys, each at most what it held of that account; of the
    /// others it holds nothing more. It takes no memory.
    pub fn release(&mut self, group: GroupNo, holds: &[Hold])
        requires rising { Rises key_cmp (map (λ h. h.key) holds.now) }
        requires at_most { IsAtMost group self.old.books.holds holds.now }
        ensures books { self.new.books ≡ released group holds.now self.old.books }
        ensures spare { self.new.spare ≡ self.old.spare }
    {
        if let Some(index) = self.store.find_group(group) {
            let held = self.store.unbook(self.alloc, index);
            let kept = lowered(&self.store, held, holds);
            self.store.book(index, kept);
        }
    }

    /// Gives back the ipp charge of a group, which stands and wasn't refunded. It takes no memory, but one entry of the room
    /// that was made.
    pub fn refund(&mut self, key: &Key, seconds: u64, group: GroupNo)
        requires stands { ipp_of group self.old.books.holds ≡ Some record { key = key.now; seconds = seconds } }
        requires spare { 0 < self.old.spare }
        requires bound { total_seconds self.old.books + seconds ≤ MOST_SECONDS_IN_ALL }
        ensures books { self.new.books ≡ refunded group self.old.books }
        ensures entry { self.new.books.entries ≡ self.old.books.entries ++ refund_entry group record { key = key.now; seconds = seconds } ∷ [] }
        ensures once { ipp_of group self.new.books.holds ≡ None }
        ensures spare { self.new.spare + 1 ≡ self.old.spare }
    {
        let index = match self.store.find_group(group) {
            Some(index) => index,
            None => unreachable!(),
        };
        self.store.refund(index);
    }
}
