// What the pending requests of a group hold of its proposal's accounts.

ghost use Rattle.std.specs.Prelude.{◌≡◌, ◌++◌, ◌∷◌, [], ◌≤◌, ◌<◌, ◌^◌, if◌then◌else◌, max, length, All, IfOk, OnOk};
ghost use Rattle.std.specs.List.{zip};
ghost use Rattle.plan_base.specs.Limits.{most_seconds, most_members};
ghost use Rattle.allocations.specs.Key.{is_key};
ghost use Rattle.allocations.specs.Books.{held_in};
ghost use Rattle.allocations.specs.Ledger.{seconds_of_holds};
ghost use Rattle.desk_core.specs.Holds.{account_of, key_of, needs_of, keys_in, greatest_in, held_for, holds_of, ipp_charge};

use crate::desk::Wanted;
use allocations::{Account, Hold, Key};
use desk_runs::{Group, Request};
use plan_base::Op;
use request_model::{GroupDoc, ObsKind};
use std::alloc::{AllocError, Global};
use std::collections::BTreeSet;

/// The account of an observation type.
fn account_of(kind: ObsKind) -> Account
    ensures { result ≡ account_of kind }
{
    match kind {
        ObsKind::Normal => Account::Standard,
        ObsKind::TimeCritical => Account::TimeCritical,
        ObsKind::RapidResponse => Account::RapidResponse,
    }
}

/// The account that a request of a group uses. Fails only for want of memory.
pub(crate) fn key_of(document: &GroupDoc, wanted: &Wanted) -> Result<Key, AllocError>
    ensures { IfOk result (λ key. key ≡ key_of document.now wanted.now) }
{
    Ok(Key {
        proposal: document.proposal.clone()?,
        account: account_of(document.kind),
        instrument: wanted.instrument.clone()?,
    })
}

/// Adds what a request needs, if it is pending.
fn push_need(
    needs: &mut Vec<Hold>,
    document: &GroupDoc,
    request: Request,
    wanted: &Wanted,
) -> Result<(), AllocError>
    ensures { OnOk result (needs.new.items ≡ needs.old.items ++ needs_of document.now ((request, wanted.now) ∷ [])) }
{
    if !request.state.is_pending() {
        return Ok(());
    }
    let key = key_of(document, wanted)?;
    needs
        .push(Hold {
            key,
            seconds: u64::from(request.seconds),
        })
        .map_err(AllocError::from)
}

/// What the pending ones of these requests need.
fn needs_of(
    alloc: Global,
    document: &GroupDoc,
    requests: &[Request],
    wanted: &[Wanted],
) -> Result<Vec<Hold>, AllocError>
    requires { length wanted.now ≡ length requests.now }
    ensures { IfOk result (λ needs. needs.items ≡ needs_of document.now (zip requests.now wanted.now)) }
{
    let mut needs = Vec::new(alloc);
    for (i, request) in requests.iter().enumerate() {
        push_need(&mut needs, document, *request, &wanted[i])?;
    }
    Ok(needs)
}

/// The accounts that are needed.
fn keys_in(alloc: Global, needs: &[Hold]) -> Result<BTreeSet<Key>, AllocError>
    ensures { IfOk result (λ keys. keys.keys ≡ keys_in needs.now) }
{
    let mut keys = BTreeSet::new(alloc);
    for need in needs {
        keys.insert(need.key.clone()?)?;
    }
    Ok(keys)
}

/// What a need adds to an account.
fn seconds_on(key: &Key, need: &Hold) -> u64
    ensures { result ≡ (if is_key need.now.key key.now then need.now.seconds else 0) }
{
    if need.key.is(key) { need.seconds } else { 0 }
}

/// The sum of the needs of an account.
fn held_in(key: &Key, needs: &[Hold]) -> u64
    requires { held_in key.now needs.now < 2 ^ 64 }
    ensures { result ≡ held_in key.now needs.now }
{
    needs.iter().map(|need| seconds_on(key, need)).sum()
}

/// The greater of what is known and a need of an account.
fn greater(key: &Key, most: u64, need: &Hold) -> u64
    ensures { result ≡ (if is_key need.now.key key.now then max most need.now.seconds else most) }
{
    if need.key.is(key) {
        most.max(need.seconds)
    } else {
        most
    }
}

/// The greatest need of an account.
fn greatest_in(key: &Key, needs: &[Hold]) -> u64
    ensures { result ≡ greatest_in key.now needs.now }
{
    let mut most = 0;
    for need in needs {
        most = greater(key, most, need);
    }
    most
}

/// What is held of an account.
fn held_for(op: Op, key: &Key, needs: &[Hold]) -> u64
    requires { held_in key.now needs.now < 2 ^ 64 }
    ensures { result ≡ held_for op needs.now key.now }
{
    if op.is_oneof() {
        greatest_in(key, needs)
    } else {
        held_in(key, needs)
    }
}

/// What is held for needs, of each account.
fn holds_of(alloc: Global, op: Op, needs: &[Hold]) -> Result<Vec<Hold>, AllocError>
    requires { seconds_of_holds needs.now < 2 ^ 64 }
    ensures { IfOk result (λ holds. holds.items ≡ holds_of op needs.now) }
{
    let mut holds = Vec::new(alloc);
    for key in keys_in(alloc, needs)? {
        let seconds = held_for(op, &key, needs);
        holds.push(Hold { key, seconds })?;
    }
    Ok(holds)
}

/// What a group of at most 256 requests holds, of each account. Fails only for want of memory.
pub(crate) fn held(
    alloc: Global,
    document: &GroupDoc,
    group: &Group,
    wanted: &[Wanted],
) -> Result<Vec<Hold>, AllocError>
    requires count { length wanted.now ≡ length group.now.requests }
    requires few { length group.now.requests ≤ most_members }
    requires short { All (λ q. q.seconds ≤ most_seconds) group.now.requests }
    ensures { IfOk result (λ holds. holds.items ≡ holds_of group.now.op (needs_of document.now (zip group.now.requests wanted.now))) }
{
    let needs = needs_of(alloc, document, group.requests.as_slice(), wanted)?;
    holds_of(alloc, group.op, needs.as_slice())
}

/// The seconds of holds.
fn seconds_of_holds(holds: &[Hold]) -> u64
    requires { seconds_of_holds holds.now < 2 ^ 64 }
    ensures { result ≡ seconds_of_holds holds.now }
{
    holds.iter().map(|hold| hold.seconds).sum()
}

/// What a group of this intra-proposal priority, in thousandths, is charged for what it holds, of its proposal's ipp account.
pub(crate) fn ipp_charge(ipp: u16, holds: &[Hold]) -> u64
    requires { seconds_of_holds holds.now ≤ 10 ^ 12 }
    ensures { result ≡ ipp_charge ipp holds.now }
{
    if ipp <= 1_000 {
        return 0;
    }
    (u64::from(ipp - 1_000) * seconds_of_holds(holds)).div_ceil(1_000)
}
