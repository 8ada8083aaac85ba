// The commands that register instruments and telescopes, and say when they see the sky.

ghost use Rattle.std.specs.Prelude.{◌≡◌, ◌≢◌, IfOk, IfErr, Ok, Err};
ghost use Rattle.plan_json.specs.declared.fault.JsonFault.TheVariants.{NoMemory};
ghost use Rattle.plan_json.specs.Shown.{members_of};
ghost use Rattle.plan_json.specs.Text.{text_in};
ghost use Rattle.desk_events.specs.Commands.{instrument_of, telescope_of, night_of, visibility_of};

use crate::command::Command;
use plan_base::{MOST_CARRIED, MOST_MS, Name};
use plan_json::{Doc, DocList, Element, JsonFault, Member, read_list};
use std::alloc::Global;

/// An `instrument` line.
pub(crate) fn read_instrument(alloc: Global, doc: &Doc) -> Result<Command, JsonFault>
    ensures value { IfOk result (λ command. instrument_of (members_of doc.now) ≡ Ok command) }
    ensures fault { IfErr result (λ e. e ≢ NoMemory → instrument_of (members_of doc.now) ≡ Err e) }
{
    let name = doc.text(alloc, Member::TypeName)?;
    let front_ms = doc.number(Member::FrontMs, 0, MOST_MS)?;
    let config_ms = doc.number(Member::ConfigMs, 0, MOST_MS)?;
    let readout_ms = doc.number(Member::ReadoutMs, 0, MOST_MS)?;
    let change_ms = doc.number(Member::ChangeMs, 0, MOST_MS)?;
    Ok(Command::Instrument {
        name,
        front_ms,
        config_ms,
        readout_ms,
        change_ms,
    })
}

/// Names of instrument types.
struct InstrumentTypes;

impl Element<Name> for InstrumentTypes {
    ghost element_in = { text_in };

    fn read(&self, alloc: Global, list: &DocList, index: u32) -> Result<Name, JsonFault> {
        list.text(alloc, index)
    }
}

/// A `telescope` line.
pub(crate) fn read_telescope(alloc: Global, doc: &Doc) -> Result<Command, JsonFault>
    ensures value { IfOk result (λ command. telescope_of (members_of doc.now) ≡ Ok command) }
    ensures fault { IfErr result (λ e. e ≢ NoMemory → telescope_of (members_of doc.now) ≡ Err e) }
{
    let site = doc.text(alloc, Member::Site)?;
    let enclosure = doc.text(alloc, Member::Enclosure)?;
    let telescope = doc.text(alloc, Member::Telescope)?;
    let class = doc.text(alloc, Member::Class)?;
    let instruments = read_list(
        alloc,
        &InstrumentTypes,
        doc,
        Member::Instruments,
        1,
        MOST_CARRIED,
    )?;
    Ok(Command::Telescope {
        site,
        enclosure,
        telescope,
        class,
        instruments,
    })
}

/// A `night` line.
pub(crate) fn read_night(alloc: Global, doc: &Doc) -> Result<Command, JsonFault>
    ensures value { IfOk result (λ command. night_of (members_of doc.now) ≡ Ok command) }
    ensures fault { IfErr result (λ e. e ≢ NoMemory → night_of (members_of doc.now) ≡ Err e) }
{
    let site = doc.text(alloc, Member::Site)?;
    let spans = doc.spans(alloc, Member::Spans)?;
    Ok(Command::Night { site, spans })
}

/// A `visibility` line.
pub(crate) fn read_visibility(alloc: Global, doc: &Doc) -> Result<Command, JsonFault>
    ensures value { IfOk result (λ command. visibility_of (members_of doc.now) ≡ Ok command) }
    ensures fault { IfErr result (λ e. e ≢ NoMemory → visibility_of (members_of doc.now) ≡ Err e) }
{
    let target = doc.text(alloc, Member::Target)?;
    let site = doc.text(alloc, Member::Site)?;
    let spans = doc.spans(alloc, Member::Spans)?;
    Ok(Command::Visibility {
        target,
        site,
        spans,
    })
}
