// The lines, each written straight from what it is about and what is drawn for it.

ghost use Rattle.std.specs.Prelude.{◌≡◌, IfOk, OnOk};
ghost use Rattle.plan_json.specs.Adds.{text_of};
ghost use Rattle.workload.specs.declared.subject.Subject.TheVariants.{Submit};
ghost use Rattle.workload.specs.Generator.{number_after};
ghost use Rattle.workload.specs.Subjects.{draws_of};
ghost use Rattle.workload.specs.Documents.{open_data, instrument_data, telescope_data, night_of, night_line, night_data, sky_from, sky_line, visibility_data};
ghost use Rattle.workload.specs.Documents.{grant_data, group_line, submit_data, plan_data, document};

use crate::class::Class;
use crate::draws::Draws;
use crate::name::{Name, Numbered};
use crate::one::One;
use crate::request::{AsDocument, Request, draw_requests};
use crate::subject::{Subject, shape_of};
use plan_base::{ListOf, Op, Sec, Span};
use plan_json::{Each, json_text, object, word};
use std::alloc::{AllocError, Global};

#[tactic(auto, unfolding(crate::specs::Documents::open_data))]
fn open(alloc: Global, workers: u32) -> Result<Vec<u8>, AllocError>
    ensures { IfOk result (λ line. line.items ≡ text_of (open_data workers)) }
{
    let object = object!(
        "do": word!("open"),
        "horizon": 144u32,
        "lanes": 4u32,
        "now": 0u32,
        "rounds": 32u32,
        "semester": Span { from: Sec(0), to: Sec(15_552_000) },
        "slice": 300u32,
        "workers": workers,
    );
    json_text(alloc, &object)
}

#[tactic(auto, unfolding(crate::specs::Documents::instrument_data))]
fn instrument(alloc: Global, class: Class) -> Result<Vec<u8>, AllocError>
    ensures { IfOk result (λ line. line.items ≡ text_of (instrument_data class)) }
{
    let object = object!(
        "change_ms": 2_000u32,
        "config_ms": 16_000u32,
        "do": word!("instrument"),
        "front_ms": 90_000u32,
        "readout_ms": 28_000u32,
        "type": Name::Instrument(class),
    );
    json_text(alloc, &object)
}

#[tactic(auto, unfolding(crate::specs::Documents::telescope_data))]
fn telescope(alloc: Global, site: u32, class: Class) -> Result<Vec<u8>, AllocError>
    ensures { IfOk result (λ line. line.items ≡ text_of (telescope_data site class)) }
{
    let object = object!(
        "class": Name::Class(class),
        "do": word!("telescope"),
        "enclosure": Name::Enclosure(class),
        "instruments": One { item: Name::Instrument(class) },
        "site": Name::Site(site),
        "telescope": Name::Telescope(class),
    );
    json_text(alloc, &object)
}

/// The seconds of a site's night.
fn night_of(site: u32) -> Span
    ensures { result ≡ night_of site }
{
    let from = 3_600 * u64::from(site);
    Span {
        from: Sec(from),
        to: Sec(from + 28_800),
    }
}

#[tactic(auto, unfolding(crate::specs::Documents::night_line))]
fn night_line(alloc: Global, site: u32, night: Span) -> Result<Vec<u8>, AllocError>
    ensures { IfOk result (λ line. line.items ≡ text_of (night_line site night)) }
{
    let object = object!(
        "do": word!("night"),
        "site": Name::Site(site),
        "spans": One { item: night },
    );
    json_text(alloc, &object)
}

fn night(alloc: Global, site: u32) -> Result<Vec<u8>, AllocError>
    ensures { IfOk result (λ line. line.items ≡ text_of (night_data site)) }
{
    night_line(alloc, site, night_of(site))
}

/// The span of seconds that a target is drawn to stand in the sky.
fn draw_sky(draws: &mut Draws) -> Span
    ensures drawn { result ≡ sky_from draws.old.x }
    ensures next { draws.new.x ≡ number_after draws.old.x 2 }
{
    let from = 300 * draws.draw(96);
    let to = from + 10_800 + 300 * draws.draw(24);
    Span {
        from: Sec(u64::from(from)),
        to: Sec(u64::from(to)),
    }
}

/// The line that says when a target stands in the sky of a site.
#[tactic(auto, unfolding(crate::specs::Documents::sky_line))]
fn sky_line(alloc: Global, target: u32, site: u32, sky: Span) -> Result<Vec<u8>, AllocError>
    ensures { IfOk result (λ line. line.items ≡ text_of (sky_line target site sky)) }
{
    let object = object!(
        "do": word!("visibility"),
        "site": Name::Site(site),
        "spans": One { item: sky },
        "target": Numbered { alloc, letter: "T", number: target },
    );
    json_text(alloc, &object)
}

fn visibility(
    alloc: Global,
    draws: &mut Draws,
    target: u32,
    site: u32,
) -> Result<Vec<u8>, AllocError>
    ensures line { IfOk result (λ line. line.items ≡ text_of (visibility_data target site draws.old.x)) }
    ensures next { OnOk result (draws.new.x ≡ number_after draws.old.x 2) }
{
    let sky = draw_sky(draws);
    sky_line(alloc, target, site, sky)
}

#[tactic(auto, unfolding(crate::specs::Documents::grant_data))]
fn grant(alloc: Global, proposal: u32, class: Class) -> Result<Vec<u8>, AllocError>
    ensures { IfOk result (λ line. line.items ≡ text_of (grant_data proposal class)) }
{
    let object = object!(
        "account": word!("standard"),
        "do": word!("grant"),
        "instrument_type": Name::Instrument(class),
        "proposal": Numbered { alloc, letter: "P", number: proposal },
        "seconds": 1_000_000u32,
    );
    json_text(alloc, &object)
}

/// The line that submits a group of this number, with these requests.
#[tactic(auto, unfolding(crate::specs::Documents::group_line))]
fn group_line(
    alloc: Global,
    group: u32,
    op: Op,
    priority: u32,
    requests: &ListOf<Request>,
) -> Result<Vec<u8>, AllocError>
    ensures { IfOk result (λ line. line.items ≡ text_of (group_line group op priority requests.now)) }
{
    let object = object!(
        "do": word!("submit"),
        "group": object!(
            "name": word!("g"),
            "observation_type": word!("NORMAL"),
            "operator": op,
            "priority": priority,
            "proposal": Numbered { alloc, letter: "P", number: group % 4 },
            "requests": Each { form: AsDocument { alloc }, items: requests },
        ),
    );
    json_text(alloc, &object)
}

fn submit(alloc: Global, draws: &mut Draws, group: u32) -> Result<Vec<u8>, AllocError>
    ensures line { IfOk result (λ line. line.items ≡ text_of (submit_data group draws.old.x)) }
    ensures next { OnOk result (draws.new.x ≡ number_after draws.old.x (draws_of (Submit group))) }
{
    let (op, count) = shape_of(group);
    let priority = 1 + draws.draw(30);
    let requests = draw_requests(alloc, draws, count)?;
    group_line(alloc, group, op, priority, &requests)
}

#[tactic(auto, unfolding(crate::specs::Documents::plan_data))]
fn plan(alloc: Global) -> Result<Vec<u8>, AllocError>
    ensures { IfOk result (λ line. line.items ≡ text_of plan_data) }
{
    json_text(alloc, &object!("do": word!("plan")))
}

/// The line about this, with what is drawn for it. Fails only for want of memory.
pub(crate) fn line_about(
    alloc: Global,
    draws: &mut Draws,
    workers: u32,
    subject: Subject,
) -> Result<Vec<u8>, AllocError>
    ensures line { IfOk result (λ line. line.items ≡ text_of (document workers draws.old.x subject)) }
    ensures next { OnOk result (draws.new.x ≡ number_after draws.old.x (draws_of subject)) }
{
    match subject {
        Subject::Open => open(alloc, workers),
        Subject::Instrument { class } => instrument(alloc, class),
        Subject::Telescope { site, class } => telescope(alloc, site, class),
        Subject::Night { site } => night(alloc, site),
        Subject::Visibility { target, site } => visibility(alloc, draws, target, site),
        Subject::Grant { proposal, class } => grant(alloc, proposal, class),
        Subject::Submit { group } => submit(alloc, draws, group),
        Subject::Plan => plan(alloc),
    }
}
