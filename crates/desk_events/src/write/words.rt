// Words of entries.

ghost use Rattle.std.specs.Prelude.{◌≡◌};
ghost use Rattle.serde_json.specs.Data.{string};
ghost use Rattle.desk_events.specs.Words.{state_word, account_word, full_word};

use crate::refusal::FullOf;
use allocations::Account;
use plan_base::RequestState;
use plan_json::Json;
use std::alloc::AllocError;

fn state_word(state: RequestState) -> &'static str
    ensures { result.now ≡ state_word state }
{
    match state {
        RequestState::Pending => "PENDING",
        RequestState::Completed => "COMPLETED",
        RequestState::WindowExpired => "WINDOW_EXPIRED",
        RequestState::Canceled => "CANCELED",
    }
}

/// A state by its word.
#[derive(Drop)]
pub(crate) struct StateWord(pub(crate) RequestState);

impl Json for StateWord {
    ghost value = { λ word. string (state_word word.0) };

    ghost levels = { 0 };

    fn write(&self, out: &mut Vec<u8>) -> Result<(), AllocError> {
        state_word(self.0).write(out)
    }
}

fn full_word(what: FullOf) -> &'static str
    ensures { result.now ≡ full_word what }
{
    match what {
        FullOf::Instruments => "instruments",
        FullOf::Telescopes => "telescopes",
        FullOf::Sites => "sites",
        FullOf::Targets => "targets",
        FullOf::Visibility => "visibility",
        FullOf::Closures => "closures",
        FullOf::Accounts => "accounts",
        FullOf::Requests => "requests",
    }
}

impl Json for FullOf {
    ghost value = { λ what. string (full_word what) };

    ghost levels = { 0 };

    fn write(&self, out: &mut Vec<u8>) -> Result<(), AllocError> {
        full_word(*self).write(out)
    }
}

fn account_word(account: Account) -> &'static str
    ensures { result.now ≡ account_word account }
{
    match account {
        Account::Standard => "standard",
        Account::TimeCritical => "time_critical",
        Account::RapidResponse => "rapid_response",
        Account::Ipp => "ipp",
    }
}

/// An account by its word.
#[derive(Drop)]
pub(crate) struct AccountWord(pub(crate) Account);

impl Json for AccountWord {
    ghost value = { λ word. string (account_word word.0) };

    ghost levels = { 0 };

    fn write(&self, out: &mut Vec<u8>) -> Result<(), AllocError> {
        account_word(self.0).write(out)
    }
}
