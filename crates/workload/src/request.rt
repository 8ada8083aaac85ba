// Requests as they are drawn, and their documents.

ghost use Rattle.std.specs.Prelude.{◌≡◌, ◌≤◌, ◌*◌, IfOk, OnOk};
ghost use Rattle.plan_base.specs.Limits.{most_asked};
ghost use Rattle.workload.specs.Generator.{number_after};
ghost use Rattle.workload.specs.Requests.{request_from, requests_from};
ghost use Rattle.workload.specs.Documents.{exposure_data, configuration_data, window_data, request_data};

use crate::class::Class;
use crate::draws::Draws;
use crate::name::{Name, Numbered};
use crate::one::One;
use plan_base::ListOf;
use plan_json::{Form, Json, object};
use std::alloc::{AllocError, Global};

/// A request as it is drawn: an exposure of a target by telescopes of a class, within a window of seconds.
#[derive(Clone, Copy)]
pub(crate) struct Request {
    /// The class of the telescopes.
    pub class: Class,
    /// The number of its target, 0 to 39.
    pub target: u32,
    /// How long it is exposed, 60,000 to 1,200,000 milliseconds.
    pub exposure_ms: u32,
    /// The first second of its window, 0 to 21,300.
    pub start: u32,
    /// The second after its window, 7,200 to 21,300 after the first.
    pub end: u32,
}

/// Draws a request.
pub(crate) fn draw_request(draws: &mut Draws) -> Request
    ensures drawn { result ≡ request_from draws.old.x }
    ensures next { draws.new.x ≡ number_after draws.old.x 5 }
{
    let class = Class::drawn(draws.draw(2));
    let target = draws.draw(40);
    let exposure_ms = 60_000 * (1 + draws.draw(20));
    let start = 300 * draws.draw(72);
    let end = start + 7_200 + 300 * draws.draw(48);
    Request {
        class,
        target,
        exposure_ms,
        start,
        end,
    }
}

/// Draws requests, at most 32, one after another.
pub(crate) fn draw_requests(
    alloc: Global,
    draws: &mut Draws,
    count: u32,
) -> Result<ListOf<Request>, AllocError>
    requires { count ≤ most_asked }
    ensures drawn { IfOk result (λ requests. requests ≡ requests_from draws.old.x count) }
    ensures next { OnOk result (draws.new.x ≡ number_after draws.old.x (5 * count)) }
{
    let mut requests = ListOf::new(alloc);
    for _ in 0..count {
        requests.push(draw_request(draws))?;
    }
    Ok(requests)
}

#[derive(Drop)]
struct Exposure {
    ms: u32,
}

impl Json for Exposure {
    ghost value = { λ exposure. exposure_data exposure.ms };

    ghost levels = { 1 };

    fn write(&self, out: &mut Vec<u8>) -> Result<(), AllocError> {
        object!("exposure_count": 1u32, "exposure_time_ms": self.ms).write(out)
    }
}

#[derive(Drop)]
struct Configuration {
    alloc: Global,
    class: Class,
    target: u32,
    exposure_ms: u32,
}

impl Json for Configuration {
    ghost value = { λ c. configuration_data c.class c.target c.exposure_ms };

    ghost levels = { 3 };

    fn write(&self, out: &mut Vec<u8>) -> Result<(), AllocError> {
        object!(
            "instrument_configs": One { item: Exposure { ms: self.exposure_ms } },
            "instrument_type": Name::Instrument(self.class),
            "target": object!("name": Numbered {
                alloc: self.alloc,
                letter: "T",
                number: self.target,
            }),
        )
        .write(out)
    }
}

#[derive(Drop)]
struct Window {
    start: u32,
    end: u32,
}

impl Json for Window {
    ghost value = { λ window. window_data window.start window.end };

    ghost levels = { 1 };

    fn write(&self, out: &mut Vec<u8>) -> Result<(), AllocError> {
        object!("end": self.end, "start": self.start).write(out)
    }
}

/// Requests as documents. What memory it takes comes from the allocator.
#[derive(Drop)]
pub(crate) struct AsDocument {
    /// The allocator.
    pub alloc: Global,
}

impl Form<Request> for AsDocument {
    ghost value_of = { λ _. request_data };

    ghost levels = { 5 };

    fn write_value(&self, request: &Request, out: &mut Vec<u8>) -> Result<(), AllocError> {
        let configuration = Configuration {
            alloc: self.alloc,
            class: request.class,
            target: request.target,
            exposure_ms: request.exposure_ms,
        };
        let window = Window {
            start: request.start,
            end: request.end,
        };
        object!(
            "configurations": One { item: configuration },
            "location": object!("telescope_class": Name::Class(request.class)),
            "windows": One { item: window },
        )
        .write(out)
    }
}
