// Requests, as they are written.

ghost use Rattle.plan_json.specs.Adds.{AddsNested};
ghost use Rattle.request_model.specs.declared.request.When.TheVariants as when;
ghost use Rattle.request_model.specs.Written.{location_data, request_at, request_data};

use crate::request::{Cadence, Location, RequestDoc, When};
use crate::write::configuration::OfType;
use crate::write::times::AsWindows;
use plan_base::{ListOf, Span};
use plan_json::{Each, Json, above_0, object};
use std::alloc::AllocError;

impl Json for Location {
    ghost value = { location_data };

    ghost levels = { 1 };

    fn write(&self, out: &mut Vec<u8>) -> Result<(), AllocError> {
        object!(
            "enclosure"?: &self.enclosure,
            "site"?: &self.site,
            "telescope"?: &self.telescope,
            "telescope_class": &self.class,
        )
        .write(out)
    }
}

#[tactic(auto, unfolding(crate::specs::Written::request_at))]
fn write_with_cadence(
    request: &RequestDoc,
    cadence: &Cadence,
    fade: &Option<u16>,
    out: &mut Vec<u8>,
) -> Result<(), AllocError>
    ensures { AddsNested result out.old.items out.new.items 5
        (request_at request.now (when.Cadence cadence.now) fade.now) }
{
    object!(
        "acceptability_threshold": request.threshold,
        "cadence": cadence,
        "configurations": Each {
            form: OfType { instrument: &request.instrument },
            items: &request.configurations,
        },
        "fade"?: fade,
        "location": &request.location,
    )
    .write(out)
}

#[tactic(auto, unfolding(crate::specs::Written::request_at))]
fn write_with_windows(
    request: &RequestDoc,
    windows: &ListOf<Span>,
    fade: &Option<u16>,
    out: &mut Vec<u8>,
) -> Result<(), AllocError>
    ensures { AddsNested result out.old.items out.new.items 5
        (request_at request.now (when.Windows windows.now) fade.now) }
{
    object!(
        "acceptability_threshold": request.threshold,
        "configurations": Each {
            form: OfType { instrument: &request.instrument },
            items: &request.configurations,
        },
        "fade"?: fade,
        "location": &request.location,
        "windows": Each { form: AsWindows, items: windows },
    )
    .write(out)
}

impl Json for RequestDoc {
    ghost value = { request_data };

    ghost levels = { 5 };

    fn write(&self, out: &mut Vec<u8>) -> Result<(), AllocError> {
        let fade = above_0(self.fade);
        match &self.when {
            When::Cadence(cadence) => write_with_cadence(self, cadence, &fade, out),
            When::Windows(windows) => write_with_windows(self, windows, &fade, out),
        }
    }
}
