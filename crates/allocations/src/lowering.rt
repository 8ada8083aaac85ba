// How what a group holds is lowered.

ghost use Rattle.std.specs.Prelude.{◌≡◌, ◌<◌, All, length};
ghost use Rattle.allocations.specs.Lowered.{lowered_to, IsFirstOn};

use crate::entry::Hold;
use crate::store::Store;
use crate::sums::Amount;
use plan_base::ListOf;

/// The seconds of the first hold, where it names the account at a place.
fn first_on(store: &Store, account: usize, holds: &[Hold]) -> Option<u64>
    requires { account < length store.now.keys }
    ensures { IsFirstOn store.now.keys account holds.now result }
{
    let [first, ..] = holds else {
        return None;
    };
    if store.key(account).is(&first.key) {
        Some(first.seconds)
    } else {
        None
    }
}

/// What a group holds once it is lowered to these holds, in the memory of the list that it held.
pub(crate) fn lowered(store: &Store, held: ListOf<Amount>, holds: &[Hold]) -> ListOf<Amount>
    requires { All (λ m. m.account < length store.now.keys) held }
    ensures { result ≡ lowered_to store.now.keys held holds.now }
{
    let mut amounts = held.into_vec();
    let mut kept = 0;
    for index in 0..amounts.len() {
        let account = amounts[index].account;
        if let Some(seconds) = first_on(store, account, &holds[kept..]) {
            amounts[kept] = Amount { account, seconds };
            kept += 1;
        }
    }
    amounts.truncate(kept);
    ListOf::from_vec(amounts)
}
