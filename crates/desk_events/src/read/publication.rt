// The command that publishes a claim.

ghost use Rattle.std.specs.Prelude.{◌≡◌, ◌≢◌, IfOk, IfErr, Ok, Err};
ghost use Rattle.plan_json.specs.declared.fault.JsonFault.TheVariants.{NoMemory};
ghost use Rattle.plan_json.specs.Shown.{members_of};
ghost use Rattle.desk_events.specs.Commands.{publish_of};

use crate::command::Command;
use plan_base::MOST_VERSION;
use plan_doc::read_claim;
use plan_json::{Doc, JsonFault, Member};
use std::alloc::Global;

/// A `publish` line.
pub(crate) fn read_publish(alloc: Global, doc: &Doc) -> Result<Command, JsonFault>
    ensures value { IfOk result (λ command. publish_of (members_of doc.now) ≡ Ok command) }
    ensures fault { IfErr result (λ e. e ≢ NoMemory → publish_of (members_of doc.now) ≡ Err e) }
{
    let version = doc.number(Member::Version, 0, MOST_VERSION)?;
    let inner = doc.object(Member::Claim)?;
    let claim = read_claim(alloc, &inner)?;
    Ok(Command::Publish {
        version: u64::from(version),
        claim,
    })
}
