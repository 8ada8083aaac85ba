// The commands on request groups.

ghost use Rattle.std.specs.Prelude.{◌≡◌, ◌≢◌, IfOk, IfErr, Ok, Err};
ghost use Rattle.plan_json.specs.Shown.{members_of};
ghost use Rattle.request_model.specs.declared.fault.GroupFault.TheVariants.{NoMemory};
ghost use Rattle.desk_events.specs.Commands.{document_in, group_number_of, submit_of, amend_of, withdraw_of, show_of};

use crate::command::Command;
use plan_base::GroupNo;
use plan_json::{Doc, JsonFault, Member};
use request_model::{GroupDoc, GroupFault, read_group};
use std::alloc::Global;

fn read_document(alloc: Global, doc: &Doc) -> Result<GroupDoc, GroupFault>
    ensures value { IfOk result (λ group. document_in (members_of doc.now) ≡ Ok group) }
    ensures fault { IfErr result (λ e. e ≢ NoMemory → document_in (members_of doc.now) ≡ Err e) }
{
    let inner = doc.object(Member::Group)?;
    read_group(alloc, &inner)
}

fn read_group_number(doc: &Doc) -> Result<GroupNo, JsonFault>
    ensures { result ≡ group_number_of (members_of doc.now) }
{
    let number = doc.number(Member::GroupNumber, 0, u32::MAX)?;
    Ok(GroupNo(number))
}

/// A `submit` line.
pub(crate) fn read_submit(alloc: Global, doc: &Doc) -> Result<Command, GroupFault>
    ensures value { IfOk result (λ command. submit_of (members_of doc.now) ≡ Ok command) }
    ensures fault { IfErr result (λ e. e ≢ NoMemory → submit_of (members_of doc.now) ≡ Err e) }
{
    let group = read_document(alloc, doc)?;
    Ok(Command::Submit { group })
}

/// An `amend` line.
pub(crate) fn read_amend(alloc: Global, doc: &Doc) -> Result<Command, GroupFault>
    ensures value { IfOk result (λ command. amend_of (members_of doc.now) ≡ Ok command) }
    ensures fault { IfErr result (λ e. e ≢ NoMemory → amend_of (members_of doc.now) ≡ Err e) }
{
    let group_number = read_group_number(doc)?;
    let group = read_document(alloc, doc)?;
    Ok(Command::Amend {
        group_number,
        group,
    })
}

/// A `withdraw` line.
pub(crate) fn read_withdraw(doc: &Doc) -> Result<Command, JsonFault>
    ensures { result ≡ withdraw_of (members_of doc.now) }
{
    let group_number = read_group_number(doc)?;
    Ok(Command::Withdraw { group_number })
}

/// A `show` line.
pub(crate) fn read_show(doc: &Doc) -> Result<Command, JsonFault>
    ensures { result ≡ show_of (members_of doc.now) }
{
    let group_number = read_group_number(doc)?;
    Ok(Command::Show { group_number })
}
