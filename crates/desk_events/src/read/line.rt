// What a line says.

ghost use Rattle.std.specs.Prelude.{◌≡◌, ◌≢◌, IfOk, IfErr, Ok, Err};
ghost use Rattle.plan_json.specs.Shown.{members_of};
ghost use Rattle.desk_events.specs.declared.fault.CommandFault.TheVariants.{NoMemory};
ghost use Rattle.desk_events.specs.Line.{command_of, command_in, command_of_bytes, command_of_line};
ghost use Rattle.desk_events.specs.Ranges.{IsCommand};

use crate::command::Command;
use crate::fault::CommandFault;
use crate::read::account::read_grant;
use crate::read::group::{read_amend, read_show, read_submit, read_withdraw};
use crate::read::network::{read_instrument, read_night, read_telescope, read_visibility};
use crate::read::publication::read_publish;
use crate::read::scope::{read_close, read_reopen};
use crate::read::session::{read_clock, read_open, read_report};
use crate::read::verb::{Verb, read_verb};
use crate::refusal::Refusal;
use plan_io::ScriptLine;
use plan_json::{Doc, parse_object};
use std::alloc::Global;

/// The command with its members.
fn read_members(alloc: Global, verb: Verb, doc: &Doc) -> Result<Command, CommandFault>
    ensures value { IfOk result (λ command. command_of verb (members_of doc.now) ≡ Ok command) }
    ensures fault { IfErr result (λ e. e ≢ NoMemory → command_of verb (members_of doc.now) ≡ Err e) }
{
    match verb {
        Verb::Open => Ok(read_open(doc)?),
        Verb::Instrument => Ok(read_instrument(alloc, doc)?),
        Verb::Telescope => Ok(read_telescope(alloc, doc)?),
        Verb::Night => Ok(read_night(alloc, doc)?),
        Verb::Visibility => Ok(read_visibility(alloc, doc)?),
        Verb::Close => Ok(read_close(alloc, doc)?),
        Verb::Reopen => Ok(read_reopen(alloc, doc)?),
        Verb::Grant => Ok(read_grant(alloc, doc)?),
        Verb::Submit => Ok(read_submit(alloc, doc)?),
        Verb::Amend => Ok(read_amend(alloc, doc)?),
        Verb::Withdraw => Ok(read_withdraw(doc)?),
        Verb::Clock => Ok(read_clock(doc)?),
        Verb::Report => Ok(read_report(doc)?),
        Verb::Plan => Ok(Command::Plan),
        Verb::Publish => Ok(read_publish(alloc, doc)?),
        Verb::Export => Ok(Command::Export),
        Verb::Balances => Ok(Command::Balances),
        Verb::Show => Ok(read_show(doc)?),
    }
}

fn read_object(alloc: Global, doc: &Doc) -> Result<Command, CommandFault>
    ensures value { IfOk result (λ command. command_in (members_of doc.now) ≡ Ok command) }
    ensures fault { IfErr result (λ e. e ≢ NoMemory → command_in (members_of doc.now) ≡ Err e) }
{
    let verb = read_verb(doc)?;
    read_members(alloc, verb, doc)
}

fn read_bytes(alloc: Global, bytes: &[u8]) -> Result<Command, CommandFault>
    ensures value { IfOk result (λ command. command_of_bytes bytes.now ≡ Ok command) }
    ensures fault { IfErr result (λ e. e ≢ NoMemory → command_of_bytes bytes.now ≡ Err e) }
{
    let doc = parse_object(alloc, bytes)?;
    read_object(alloc, &doc)
}

fn read_line(alloc: Global, line: &ScriptLine) -> Result<Command, CommandFault>
    ensures value { IfOk result (λ command. command_of_line line.now ≡ Ok command) }
    ensures fault { IfErr result (λ e. e ≢ NoMemory → command_of_line line.now ≡ Err e) }
{
    match line {
        ScriptLine::Bytes(bytes) => read_bytes(alloc, bytes.as_slice()),
        ScriptLine::TooLong => Err(CommandFault::Refused(Refusal::LineTooLong)),
    }
}

/// The command that a line is, or its first fault: [`Refusal::LineTooLong`]; [`Refusal::NotJson`], then
/// [`Refusal::NotObject`]; the faults of the member `do`, then [`Refusal::UnknownCommand`]; and then the first fault of
/// the command's members, each with all its faults before the next. They are read in this order, and others aren't
/// looked at:
///
/// - `open`: `now`, `slice`, `horizon`, `semester`, `lanes`, `rounds`, `workers`, and where it is there `quota`.
/// - `instrument`: `type`, `front_ms`, `config_ms`, `readout_ms`, `change_ms`.
/// - `telescope`: `site`, `enclosure`, `telescope`, `class`, `instruments`.
/// - `night`: `site`, `spans`. `visibility`: `target`, `site`, `spans`.
/// - `close`, `reopen`: `telescope`, `site`, `enclosure` where the first is there, else `site`; then `spans`.
/// - `grant`: `proposal`, `account`, `instrument_type` where the account isn't `ipp`, `seconds`.
/// - `submit`: `group`, by [`read_group`]. `amend`: `group_number`, `group`. `withdraw`, `show`: `group_number`.
/// - `clock`: `at`. `report`: `request`, `percent`, `used`.
/// - `publish`: `version`, `claim`, by [`read_claim`].
/// - `plan`, `export`, `balances`: none.
///
/// Their kinds and ranges stand at the fields of [`Command`]. Fails also for want of memory.
///
/// [`read_group`]: request_model::read_group
/// [`read_claim`]: plan_doc::read_claim
pub fn read_command(alloc: Global, line: &ScriptLine) -> Result<Command, CommandFault>
    ensures value { IfOk result (λ command. command_of_line line.now ≡ Ok command) }
    ensures fault { IfErr result (λ e. e ≢ NoMemory → command_of_line line.now ≡ Err e) }
    ensures ranges { IfOk result IsCommand }
{
    read_line(alloc, line)
}
