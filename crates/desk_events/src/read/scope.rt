// The commands that close and reopen telescopes.

ghost use Rattle.std.specs.Prelude.{◌≡◌, ◌≢◌, IfOk, IfErr, Ok, Err};
ghost use Rattle.plan_json.specs.declared.fault.JsonFault.TheVariants.{NoMemory};
ghost use Rattle.plan_json.specs.Shown.{members_of};
ghost use Rattle.desk_events.specs.Commands.{telescope_scope_of, site_scope_of, scope_of, close_of, reopen_of};

use crate::command::Command;
use plan_json::{Doc, JsonFault, Member};
use site_model::{Code, Scope};
use std::alloc::Global;

fn read_telescope_scope(alloc: Global, doc: &Doc) -> Result<Scope, JsonFault>
    ensures value { IfOk result (λ scope. telescope_scope_of (members_of doc.now) ≡ Ok scope) }
    ensures fault { IfErr result (λ e. e ≢ NoMemory → telescope_scope_of (members_of doc.now) ≡ Err e) }
{
    let telescope = doc.text(alloc, Member::Telescope)?;
    let site = doc.text(alloc, Member::Site)?;
    let enclosure = doc.text(alloc, Member::Enclosure)?;
    Ok(Scope::Telescope(Code {
        site,
        enclosure,
        telescope,
    }))
}

fn read_site_scope(alloc: Global, doc: &Doc) -> Result<Scope, JsonFault>
    ensures value { IfOk result (λ scope. site_scope_of (members_of doc.now) ≡ Ok scope) }
    ensures fault { IfErr result (λ e. e ≢ NoMemory → site_scope_of (members_of doc.now) ≡ Err e) }
{
    let site = doc.text(alloc, Member::Site)?;
    Ok(Scope::Site(site))
}

/// The one telescope where the member `telescope` is there, else the site.
fn read_scope(alloc: Global, doc: &Doc) -> Result<Scope, JsonFault>
    ensures value { IfOk result (λ scope. scope_of (members_of doc.now) ≡ Ok scope) }
    ensures fault { IfErr result (λ e. e ≢ NoMemory → scope_of (members_of doc.now) ≡ Err e) }
{
    if doc.has(Member::Telescope) {
        read_telescope_scope(alloc, doc)
    } else {
        read_site_scope(alloc, doc)
    }
}

/// A `close` line.
pub(crate) fn read_close(alloc: Global, doc: &Doc) -> Result<Command, JsonFault>
    ensures value { IfOk result (λ command. close_of (members_of doc.now) ≡ Ok command) }
    ensures fault { IfErr result (λ e. e ≢ NoMemory → close_of (members_of doc.now) ≡ Err e) }
{
    let scope = read_scope(alloc, doc)?;
    let spans = doc.spans(alloc, Member::Spans)?;
    Ok(Command::Close { scope, spans })
}

/// A `reopen` line.
pub(crate) fn read_reopen(alloc: Global, doc: &Doc) -> Result<Command, JsonFault>
    ensures value { IfOk result (λ command. reopen_of (members_of doc.now) ≡ Ok command) }
    ensures fault { IfErr result (λ e. e ≢ NoMemory → reopen_of (members_of doc.now) ≡ Err e) }
{
    let scope = read_scope(alloc, doc)?;
    let spans = doc.spans(alloc, Member::Spans)?;
    Ok(Command::Reopen { scope, spans })
}
