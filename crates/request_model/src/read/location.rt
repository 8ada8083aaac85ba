// Where a request may be observed.

ghost use Rattle.std.specs.Prelude.{◌≡◌, ◌≢◌, IfOk, IfErr, Ok, Err};
ghost use Rattle.plan_json.specs.declared.fault.JsonFault.TheVariants.{NoMemory};
ghost use Rattle.plan_json.specs.Shown.{members_of};
ghost use Rattle.request_model.specs.Location.{location_of};

use crate::request::Location;
use plan_json::{Doc, JsonFault, Member};
use std::alloc::Global;

/// The location of a request.
pub(crate) fn read_location(alloc: Global, doc: &Doc) -> Result<Location, JsonFault>
    ensures value { IfOk result (λ location. location_of (members_of doc.now) ≡ Ok location) }
    ensures fault { IfErr result (λ e. e ≢ NoMemory → location_of (members_of doc.now) ≡ Err e) }
{
    let class = doc.text(alloc, Member::TelescopeClass)?;
    let site = doc.optional_text(alloc, Member::Site)?;
    let enclosure = doc.optional_text(alloc, Member::Enclosure)?;
    let telescope = doc.optional_text(alloc, Member::Telescope)?;
    Ok(Location {
        class,
        site,
        enclosure,
        telescope,
    })
}
