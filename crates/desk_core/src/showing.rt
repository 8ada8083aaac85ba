// What is only shown: the last publication, the accounts, and a group.

ghost use Rattle.std.specs.Prelude.{◌≡◌, IsTrue, IfOk, map};
ghost use Rattle.allocations.specs.Books.{accounts_of, has_grant};
ghost use Rattle.desk_core.specs.Desk.{seen, Tells};
ghost use Rattle.desk_core.specs.Kept.{IsDesk};
ghost use Rattle.desk_core.specs.Showing.{on_export, on_balances, on_show, account_balance, member_state};

use crate::desk::Desk;
use allocations::{Key, Ledger};
use desk_events::{AccountBalance, CommandFault, MemberState, Refusal, Reply};
use desk_runs::Request;
use plan_base::{GroupNo, ListOf};
use std::alloc::{AllocError, Global};

impl Desk {
    /// `export`: the last publication.
    pub(crate) fn export(&self) -> Result<Reply, CommandFault>
        ensures { Tells (on_export (seen self.now).published) result }
    {
        let Some(publication) = &self.published else {
            return Err(Refusal::NothingPublished.into());
        };
        Ok(Reply::Exported {
            claim: publication.claim().copy()?,
            snapshot: publication.snapshot().clone()?,
        })
    }

    /// `balances`: all accounts, in their order.
    pub(crate) fn balances(&self, alloc: Global) -> Result<Reply, CommandFault>
        ensures { Tells (on_balances (seen self.now).books) result }
    {
        let balances = balances_of(alloc, &self.ledger)?;
        Ok(Reply::Balances { balances })
    }

    /// `show`: a group as it was submitted, and its states.
    pub(crate) fn show(&self, alloc: Global, number: GroupNo) -> Result<Reply, CommandFault>
        requires { IsDesk (seen self.now) }
        ensures { Tells (on_show (seen self.now) number) result }
    {
        let Some(group) = self.runs.group(number) else {
            return Err(Refusal::NoSuchGroup.into());
        };
        let submitted = self.submission(number);
        Ok(Reply::Shown {
            document: submitted.document.clone()?,
            group: number,
            requests: states_of(alloc, group.requests.as_slice())?,
            state: group.state(),
        })
    }
}

/// What each account has.
fn balances_of(alloc: Global, ledger: &Ledger) -> Result<ListOf<AccountBalance>, AllocError>
    ensures { IfOk result (λ list. list ≡ map (account_balance ledger.now.books) (accounts_of ledger.now.books.entries)) }
{
    let mut balances = ListOf::new(alloc);
    while let Some(key) = ledger.account(balances.len()) {
        balances.push(balance_of(ledger, key)?)?;
    }
    Ok(balances)
}

/// What an account with a grant has.
fn balance_of(ledger: &Ledger, key: &Key) -> Result<AccountBalance, AllocError>
    requires { IsTrue (has_grant ledger.now.books.entries key.now) }
    ensures { IfOk result (λ account. account ≡ account_balance ledger.now.books key.now) }
{
    Ok(AccountBalance {
        key: key.clone()?,
        balance: ledger.balance(key).unwrap_or(0),
        available: ledger.available(key).unwrap_or(0),
    })
}

/// Each request with its state.
fn states_of(alloc: Global, requests: &[Request]) -> Result<ListOf<MemberState>, AllocError>
    ensures { IfOk result (λ list. list ≡ map member_state requests.now) }
{
    let mut states = ListOf::new(alloc);
    for request in requests {
        states.push(MemberState {
            request: request.number,
            state: request.state,
        })?;
    }
    Ok(states)
}
