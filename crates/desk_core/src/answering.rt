// Which method each line calls.

ghost use Rattle.std.specs.Prelude.{◌≡◌, ◌≢◌, ◌≤◌, ◌<◌, true, false, ℕ, IfOk, length};
ghost use Rattle.plan_base.specs.Limits.{most_version, most_ms};
ghost use Rattle.desk_events.specs.declared.command.Command.TheVariants.{Plan};
ghost use Rattle.desk_events.specs.Ranges.{IsCommand};
ghost use Rattle.desk_core.specs.Desk.{seen};
ghost use Rattle.desk_core.specs.Kept.{IsDesk, IsRoomy};
ghost use Rattle.desk_core.specs.Registering.{times};
ghost use Rattle.desk_core.specs.Step.{Does, changes, is_registering, is_showing};

use crate::desk::Desk;
use desk_events::{Command, CommandFault, Refusal, Reply};
use plan_base::Name;
use site_model::{Code, InstrumentTimes};
use std::alloc::{AllocError, Global};

impl Desk {
    /// Does a line that says what there is.
    fn register(&mut self, alloc: Global, command: &Command) -> Result<Reply, CommandFault>
        requires desk { IsDesk (seen self.old) }
        requires room { IsRoomy (seen self.old).books }
        requires ranges { IsCommand command.now }
        requires registering { is_registering command.now ≡ true }
        ensures { (version : ℕ) → Does version (seen self.old) command.now (seen self.new) result }
    {
        match command {
            Command::Instrument {
                name,
                front_ms,
                config_ms,
                readout_ms,
                change_ms,
            } => {
                let times = times_of(*front_ms, *config_ms, *readout_ms, *change_ms);
                self.add_instrument(name, times)
            }
            Command::Telescope {
                site,
                enclosure,
                telescope,
                class,
                instruments,
            } => {
                let code = code_of(site, enclosure, telescope)?;
                self.add_telescope(code, class, instruments.as_slice())
            }
            Command::Night { site, spans } => self.set_night(alloc, site, spans.as_slice()),
            Command::Visibility {
                target,
                site,
                spans,
            } => self.set_visibility(alloc, target, site, spans.as_slice()),
            Command::Close { scope, spans } => self.close(alloc, scope, spans.as_slice()),
            Command::Reopen { scope, spans } => self.reopen(alloc, scope, spans.as_slice()),
            Command::Grant { key, seconds } => self.grant(key, *seconds),
            _ => unreachable!(),
        }
    }

    /// Does a line that only shows what there is.
    fn tell(&self, alloc: Global, command: &Command) -> Result<Reply, CommandFault>
        requires desk { IsDesk (seen self.now) }
        requires showing { is_showing command.now ≡ true }
        ensures { (version : ℕ) → Does version (seen self.now) command.now (seen self.now) result }
    {
        match command {
            Command::Export => self.export(),
            Command::Balances => self.balances(alloc),
            Command::Show { group_number } => self.show(alloc, *group_number),
            _ => unreachable!(),
        }
    }

    /// Does a line that changes groups, lets time go on or publishes a claim. The desk is opened already.
    fn proceed(
        &mut self,
        alloc: Global,
        version: u64,
        command: &Command,
    ) -> Result<Reply, CommandFault>
        requires desk { IsDesk (seen self.old) }
        requires room { IsRoomy (seen self.old).books }
        requires few { length self.old.runs.groups < most_version }
        requires version { version ≤ most_version }
        requires ranges { IsCommand command.now }
        requires step { command.now ≢ Plan }
        requires no_registering { is_registering command.now ≡ false }
        requires no_showing { is_showing command.now ≡ false }
        ensures { Does version (seen self.old) command.now (seen self.new) result }
    {
        match command {
            Command::Open { .. } => Err(CommandFault::Refused(Refusal::AlreadyOpened)),
            Command::Submit { group } => self.submit(alloc, group),
            Command::Amend {
                group_number,
                group,
            } => self.amend(alloc, *group_number, group),
            Command::Withdraw { group_number } => self.withdraw(alloc, *group_number),
            Command::Clock { at } => self.clock(alloc, *at),
            Command::Report {
                request,
                percent,
                used,
            } => self.report(alloc, *request, *percent, *used),
            Command::Publish {
                version: asked,
                claim,
            } => self.publish(alloc, version, *asked, claim),
            _ => unreachable!(),
        }
    }

    /// Does a line, any but `plan`, on the desk after so many changes. Where it is refused or finds no memory, nothing
    /// changes.
    pub(crate) fn answer(
        &mut self,
        alloc: Global,
        version: u64,
        command: &Command,
    ) -> Result<Reply, CommandFault>
        requires desk { IsDesk (seen self.old) }
        requires room { IsRoomy (seen self.old).books }
        requires few { length self.old.runs.groups < most_version }
        requires version { version ≤ most_version }
        requires ranges { IsCommand command.now }
        requires step { command.now ≢ Plan }
        ensures { Does version (seen self.old) command.now (seen self.new) result }
    {
        if is_registering(command) {
            self.register(alloc, command)
        } else if is_showing(command) {
            self.tell(alloc, command)
        } else {
            self.proceed(alloc, version, command)
        }
    }
}

/// How many changes a command is, once it is accepted.
pub(crate) fn changes(command: &Command) -> u64
    ensures count { result ≡ changes command.now }
    ensures few { result ≤ 1 }
{
    u64::from(!is_showing(command))
}

/// Whether a command says what there is.
fn is_registering(command: &Command) -> bool
    ensures { result ≡ is_registering command.now }
{
    matches!(
        command,
        Command::Instrument { .. }
            | Command::Telescope { .. }
            | Command::Night { .. }
            | Command::Visibility { .. }
            | Command::Close { .. }
            | Command::Reopen { .. }
            | Command::Grant { .. }
    )
}

/// Whether a command only shows what there is.
fn is_showing(command: &Command) -> bool
    ensures { result ≡ is_showing command.now }
{
    matches!(
        command,
        Command::Export | Command::Balances | Command::Show { .. }
    )
}

/// What an instrument type takes beside exposures, of at most a day each.
fn times_of(front_ms: u32, config_ms: u32, readout_ms: u32, change_ms: u32) -> InstrumentTimes
    requires front { front_ms ≤ most_ms }
    requires config { config_ms ≤ most_ms }
    requires readout { readout_ms ≤ most_ms }
    requires change { change_ms ≤ most_ms }
    ensures { result ≡ times front_ms config_ms readout_ms change_ms }
{
    InstrumentTimes {
        front_ms,
        config_ms,
        readout_ms,
        change_ms,
    }
}

/// The code of a telescope.
fn code_of(site: &Name, enclosure: &Name, telescope: &Name) -> Result<Code, AllocError>
    ensures { IfOk result (λ code. code ≡ record { site = site.now; enclosure = enclosure.now; telescope = telescope.now }) }
{
    Ok(Code {
        site: site.clone()?,
        enclosure: enclosure.clone()?,
        telescope: telescope.clone()?,
    })
}
