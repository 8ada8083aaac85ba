// What becomes of what open groups hold, once they have gone on.

ghost use Rattle.std.specs.Prelude.{◌≡◌, ◌+◌, ◌≤◌, ◌++◌, ◌∷◌, [], if◌then◌else◌, None, All, IfOk, OnOk, fold, length};
ghost use Rattle.plan_base.specs.Limits.{most_seconds, most_members};
ghost use Rattle.desk_core.specs.Endings.{ending_of, ended, CanEnd, CanEndAll, refunds_in};
ghost use Rattle.desk_core.specs.Holds.{is_refunded};
ghost use Rattle.desk_core.specs.Kept.{standing};

use crate::desk::Submitted;
use crate::holding::held;
use allocations::{Hold, Key, Ledger};
use desk_events::GroupRefund;
use desk_runs::Group;
use plan_base::{GroupNo, ListOf, RequestState};
use std::alloc::{AllocError, Global};

/// What an open group holds from now on, and its ipp charge where that is given back.
#[derive(Drop)]
pub(crate) struct Ending {
    /// Which group it is.
    pub group: GroupNo,
    /// What it holds from now on, account by account.
    pub holds: ListOf<Hold>,
    /// Its ipp charge, where that is given back.
    pub refund: Option<Hold>,
}

/// Whether a group stops being pending with no member completed.
fn is_refunded(before: &Group, after: &Group) -> bool
    ensures { result ≡ is_refunded before.now after.now }
{
    before.is_open() && !after.is_open() && !after.has_state(RequestState::Completed)
}

/// The ipp charge of a group, where there is one.
fn standing(alloc: Global, submitted: &Submitted) -> Result<Option<Hold>, AllocError>
    ensures { IfOk result (λ charge. charge ≡ standing submitted.now.document.proposal submitted.now.charged) }
{
    if submitted.charged == 0 {
        return Ok(None);
    }
    let key = Key::ipp(alloc, &submitted.document.proposal)?;
    Ok(Some(Hold {
        key,
        seconds: submitted.charged,
    }))
}

/// The ipp charge of a group, where it is given back.
fn refund(
    alloc: Global,
    submitted: &Submitted,
    before: &Group,
    after: &Group,
) -> Result<Option<Hold>, AllocError>
    ensures { IfOk result (λ charge. charge ≡ (if is_refunded before.now after.now
        then standing submitted.now.document.proposal submitted.now.charged else None)) }
{
    if !is_refunded(before, after) {
        return Ok(None);
    }
    standing(alloc, submitted)
}

/// What becomes of what a group holds, which has gone on. Fails only for want of memory.
pub(crate) fn find_ending(
    alloc: Global,
    submitted: &Submitted,
    before: &Group,
    after: &Group,
) -> Result<Ending, AllocError>
    requires count { length submitted.now.requests ≡ length after.now.requests }
    requires few { length after.now.requests ≤ most_members }
    requires short { All (λ q. q.seconds ≤ most_seconds) after.now.requests }
    ensures { IfOk result (λ ending. ending ≡ ending_of (submitted.now, (before.now, after.now))) }
{
    let holds = held(
        alloc,
        &submitted.document,
        after,
        submitted.requests.as_slice(),
    )?;
    let refund = refund(alloc, submitted, before, after)?;
    Ok(Ending {
        group: after.number,
        holds: ListOf::from_vec(holds),
        refund,
    })
}

/// Adds what is told of an ending.
fn push_refund(refunds: &mut Vec<GroupRefund>, ending: &Ending) -> Result<(), AllocError>
    ensures { OnOk result (refunds.new.items ≡ refunds.old.items ++ refunds_in (ending.now ∷ [])) }
{
    if let Some(charge) = &ending.refund {
        refunds.push(GroupRefund {
            group: ending.group,
            seconds: charge.seconds,
        })?;
    }
    Ok(())
}

/// What is told of endings. Fails only for want of memory.
pub(crate) fn refunds_in(
    alloc: Global,
    endings: &[Ending],
) -> Result<ListOf<GroupRefund>, AllocError>
    ensures { IfOk result (λ refunds. refunds ≡ refunds_in endings.now) }
{
    let mut refunds = Vec::new(alloc);
    for ending in endings {
        push_refund(&mut refunds, ending)?;
    }
    Ok(ListOf::from_vec(refunds))
}

/// Ends what a group holds.
fn end_group(ledger: &mut Ledger, ending: &Ending)
    requires can { CanEnd ledger.old.books ending.now }
    requires spare { length (refunds_in (ending.now ∷ [])) ≤ ledger.old.spare }
    ensures books { ledger.new.books ≡ ended ledger.old.books ending.now }
    ensures spare { ledger.new.spare + length (refunds_in (ending.now ∷ [])) ≡ ledger.old.spare }
{
    ledger.release(ending.group, ending.holds.as_slice());
    if let Some(charge) = &ending.refund {
        ledger.refund(&charge.key, charge.seconds, ending.group);
    }
}

/// Ends what groups hold, one after another. It takes no memory.
pub(crate) fn end_groups(ledger: &mut Ledger, endings: &[Ending])
    requires can { CanEndAll ledger.old.books endings.now }
    requires spare { length (refunds_in endings.now) ≤ ledger.old.spare }
    ensures books { ledger.new.books ≡ fold ended ledger.old.books endings.now }
    ensures spare { ledger.new.spare + length (refunds_in endings.now) ≡ ledger.old.spare }
{
    for ending in endings {
        end_group(ledger, ending);
    }
}
