// The sums that are kept of each account, so that no call goes over all entries.

ghost use Rattle.std.specs.Prelude.{◌≡◌, ◌+◌, ◌^◌, ◌<◌, ◌≤◌, ℕ, All, length, slice_index_or};
ghost use Rattle.std.specs.Option.{option_to_list};
ghost use Rattle.allocations.specs.Amounts.{amount_at, no_sums, sums_after, CanTake};

use crate::entry::EntryKind;

/// Seconds of the account at a place of the register.
#[derive(Clone, Copy)]
pub(crate) struct Amount {
    /// The place of the account, from 0.
    pub account: usize,
    /// How many seconds of it.
    pub seconds: u64,
}

/// What the entries leave of an account, and what groups hold of it.
#[derive(Clone, Copy)]
pub(crate) struct Sums {
    /// Its seconds: those granted and those refunded, less those charged.
    pub balance: u64,
    /// How many of these seconds groups hold.
    pub held: u64,
}

impl Sums {
    /// The sums after an entry.
    pub(crate) fn after(self, kind: EntryKind, seconds: u64) -> Sums
        requires { CanTake self kind seconds }
        ensures { result ≡ sums_after self kind seconds }
    {
        let balance = match kind {
            EntryKind::Grant | EntryKind::Refund => self.balance + seconds,
            EntryKind::Charge => self.balance - seconds,
        };
        Sums {
            balance,
            held: self.held,
        }
    }

    /// The sums when more is held.
    fn raised(self, seconds: u64) -> Sums
        requires { self.held + seconds ≤ self.balance }
        ensures { result ≡ record self { held = self.held + seconds } }
    {
        Sums {
            balance: self.balance,
            held: self.held + seconds,
        }
    }
}

/// Adds amounts to what is held.
pub(crate) fn raise(sums: &mut [Sums], amounts: &[Amount])
    requires places { All (λ m. m.account < length sums.old) amounts.now }
    requires room { (i : ℕ) → i < length sums.old
        → (slice_index_or sums.old i no_sums).held + amount_at i amounts.now ≤ (slice_index_or sums.old i no_sums).balance }
    ensures held { (i : ℕ) → i < length sums.old
        → (slice_index_or sums.new i no_sums).held ≡ (slice_index_or sums.old i no_sums).held + amount_at i amounts.now }
    ensures balance { (i : ℕ) → i < length sums.old → (slice_index_or sums.new i no_sums).balance ≡ (slice_index_or sums.old i no_sums).balance }
{
    for amount in amounts {
        let place = amount.account;
        sums[place] = sums[place].raised(amount.seconds);
    }
}

/// Takes amounts from what is held.
pub(crate) fn lower(sums: &mut [Sums], amounts: &[Amount])
    requires places { All (λ m. m.account < length sums.old) amounts.now }
    requires held { (i : ℕ) → i < length sums.old → amount_at i amounts.now ≤ (slice_index_or sums.old i no_sums).held }
    ensures held { (i : ℕ) → i < length sums.old
        → (slice_index_or sums.new i no_sums).held + amount_at i amounts.now ≡ (slice_index_or sums.old i no_sums).held }
    ensures balance { (i : ℕ) → i < length sums.old → (slice_index_or sums.new i no_sums).balance ≡ (slice_index_or sums.old i no_sums).balance }
{
    for amount in amounts {
        sums[amount.account].held -= amount.seconds;
    }
}

/// The seconds of one account in a list of amounts.
pub(crate) fn seconds_at(amounts: &[Amount], account: usize) -> u64
    requires { amount_at account amounts.now < 2 ^ 64 }
    ensures { result ≡ amount_at account amounts.now }
{
    let mut seconds = 0u64;
    for amount in amounts {
        if amount.account == account {
            seconds += amount.seconds;
        }
    }
    seconds
}

/// The seconds of one account in an amount, if there is one.
pub(crate) fn seconds_in(amount: Option<Amount>, account: usize) -> u64
    ensures { result ≡ amount_at account (option_to_list amount) }
{
    match amount {
        Some(amount) if amount.account == account => amount.seconds,
        _ => 0,
    }
}
