// How seconds are granted.

ghost use Rattle.std.specs.Prelude.{◌≡◌, ◌≢◌, ◌+◌, ◌<◌, ◌≤◌, ◌⊎◌, true, All, Contains, IfOk, IfErr, OnOk, OnErr, length, slice_get};
ghost use Rattle.std.specs.BTreeSet.{insert_key};
ghost use Rattle.plan_base.specs.Limits.{most_accounts};
ghost use Rattle.allocations.specs.declared.fault.LedgerFault.TheVariants.{Full, NoMemory};
ghost use Rattle.allocations.specs.declared.fault.FullOf.TheVariants.{Accounts};
ghost use Rattle.allocations.specs.Key.{key_cmp};
ghost use Rattle.allocations.specs.Books.{has_grant, balance_of, accounts_of, total_seconds};
ghost use Rattle.allocations.specs.Changes.{grant_entry, with_entry};
ghost use Rattle.allocations.specs.Store.{IsSound, IsGranted, store_books};

use crate::entry::EntryKind;
use crate::fault::{FullOf, LedgerFault};
use crate::key::Key;
use crate::ledger::MOST_SECONDS_IN_ALL;
use crate::posting::Posting;
use crate::store::Store;
use plan_base::{GroupNo, MOST_ACCOUNTS, RequestNo};

/// The place of an account, which is added where it isn't there.
fn account_for(store: &mut Store, key: &Key) -> Result<usize, LedgerFault>
    requires granted { IsGranted store.old }
    ensures place { IfOk result (λ place. slice_get store.new.keys place ≡ Some key.now) }
    ensures listed { OnOk result (store.new.listed ≡ insert_key key_cmp store.old.listed key.now) }
    ensures books { OnOk result (store_books store.new ≡ store_books store.old) }
    ensures spare { OnOk result (store.new.spare ≡ store.old.spare) }
    ensures granted { OnOk result (All (λ k. (has_grant (store_books store.old).entries k ≡ true) ⊎ (k ≡ key.now)) store.new.keys) }
    ensures fits { OnOk result (Contains store.old.keys key.now ⊎ (length store.old.listed < most_accounts)) }
    ensures full { IfErr result (λ fault. fault ≢ NoMemory → (fault ≡ Full most_accounts Accounts) × (¬ (Contains store.old.keys key.now))
        × (most_accounts ≤ length store.old.listed)) }
    ensures sound { IsSound store.old }
    ensures unchanged { OnErr result (store.new ≡ store.old) }
{
    match store.find(key) {
        Ok(place) => Ok(place),
        Err(index) => {
            if store.accounts() >= MOST_ACCOUNTS {
                return Err(LedgerFault::Full {
                    limit: MOST_ACCOUNTS as u64,
                    what: FullOf::Accounts,
                });
            }
            Ok(store.add_account(index, key)?)
        }
    }
}

/// Grants seconds to an account, and answers its balance. An error changes nothing of the books.
pub(crate) fn grant(store: &mut Store, key: &Key, seconds: u64) -> Result<u64, LedgerFault>
    requires granted { IsGranted store.old }
    requires listed { store.old.listed ≡ accounts_of (store_books store.old).entries }
    requires bound { total_seconds (store_books store.old) + seconds ≤ MOST_SECONDS_IN_ALL }
    ensures books { OnOk result (store_books store.new ≡ with_entry (grant_entry key.now seconds) (store_books store.old)) }
    ensures granted { OnOk result (IsGranted store.new) }
    ensures listed { OnOk result (store.new.listed ≡ accounts_of (store_books store.new).entries) }
    ensures balance { IfOk result (λ balance. balance ≡ balance_of (store_books store.new).entries key.now) }
    ensures fits { OnOk result (Contains store.old.keys key.now ⊎ (length store.old.listed < most_accounts)) }
    ensures full { IfErr result (λ fault. fault ≢ NoMemory → (fault ≡ Full most_accounts Accounts) × (¬ (Contains store.old.keys key.now))
        × (most_accounts ≤ length store.old.listed)) }
    ensures sound { IsSound store.old }
    ensures unchanged { OnErr result (store.new ≡ record store.old { spare = store.new.spare }) }
{
    store.reserve(1)?;
    let account = account_for(store, key)?;
    store.post(Posting {
        account,
        kind: EntryKind::Grant,
        seconds,
        group: GroupNo(0),
        request: RequestNo(0),
    });
    Ok(store.sums(account).balance)
}
