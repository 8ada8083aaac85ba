// The command that grants seconds.

ghost use Rattle.std.specs.Prelude.{◌≡◌, ◌≢◌, [], IfOk, IfErr, Ok, Err};
ghost use Rattle.plan_json.specs.declared.fault.JsonFault.TheVariants.{NoMemory};
ghost use Rattle.plan_json.specs.Shown.{members_of};
ghost use Rattle.desk_events.specs.Account.{account_named, account_of, account_instrument_of, key_of};
ghost use Rattle.desk_events.specs.Commands.{grant_of};

use crate::command::Command;
use allocations::{Account, Key};
use plan_base::{MOST_GRANT, Name};
use plan_json::{Doc, JsonFault, Member};
use std::alloc::{AllocError, Global};

fn account_named(word: &str) -> Option<Account>
    ensures { result ≡ account_named word.now }
{
    match word {
        "standard" => Some(Account::Standard),
        "time_critical" => Some(Account::TimeCritical),
        "rapid_response" => Some(Account::RapidResponse),
        "ipp" => Some(Account::Ipp),
        _ => None,
    }
}

fn read_account(doc: &Doc) -> Result<Account, JsonFault>
    ensures { result ≡ account_of (members_of doc.now) }
{
    let member = Member::Account;
    let word = doc.word(member)?;
    account_named(word).ok_or(JsonFault::OutOfRange { member })
}

/// The empty name.
fn no_name(alloc: Global) -> Result<Name, AllocError>
    ensures { IfOk result (λ name. name ≡ []) }
{
    let Some(name) = Name::new(alloc, "")? else {
        unreachable!();
    };
    Ok(name)
}

/// The instrument type, which isn't read for `ipp`.
fn read_instrument(alloc: Global, account: Account, doc: &Doc) -> Result<Name, JsonFault>
    ensures value { IfOk result (λ name. account_instrument_of account (members_of doc.now) ≡ Ok name) }
    ensures fault { IfErr result (λ e. e ≢ NoMemory → account_instrument_of account (members_of doc.now) ≡ Err e) }
{
    match account {
        Account::Ipp => Ok(no_name(alloc)?),
        Account::Standard | Account::TimeCritical | Account::RapidResponse => {
            doc.text(alloc, Member::InstrumentType)
        }
    }
}

fn read_key(alloc: Global, doc: &Doc) -> Result<Key, JsonFault>
    ensures value { IfOk result (λ key. key_of (members_of doc.now) ≡ Ok key) }
    ensures fault { IfErr result (λ e. e ≢ NoMemory → key_of (members_of doc.now) ≡ Err e) }
{
    let proposal = doc.text(alloc, Member::Proposal)?;
    let account = read_account(doc)?;
    let instrument = read_instrument(alloc, account, doc)?;
    Ok(Key {
        proposal,
        account,
        instrument,
    })
}

/// A `grant` line.
pub(crate) fn read_grant(alloc: Global, doc: &Doc) -> Result<Command, JsonFault>
    ensures value { IfOk result (λ command. grant_of (members_of doc.now) ≡ Ok command) }
    ensures fault { IfErr result (λ e. e ≢ NoMemory → grant_of (members_of doc.now) ≡ Err e) }
{
    let key = read_key(alloc, doc)?;
    let seconds = doc.number(Member::Seconds, 1, MOST_GRANT)?;
    Ok(Command::Grant {
        key,
        seconds: u64::from(seconds),
    })
}
