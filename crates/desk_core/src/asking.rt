// What a document asks for: its requests, tested one after another.

ghost use Rattle.std.specs.Prelude.{◌≡◌, ◌≤◌, ◌∷◌, [], map, not, IfOk};
ghost use Rattle.std.specs.List.{list_any};
ghost use Rattle.plan_base.specs.Limits.{most_seconds};
ghost use Rattle.request_model.specs.Ranges.{AreConfigurations, IsCadence, IsWhen, IsRequest, IsGroup};
ghost use Rattle.request_times.specs.Cadence.{expansion};
ghost use Rattle.request_times.specs.Duration.{IsOverhead};
ghost use Rattle.desk_core.specs.Desk.{seen};
ghost use Rattle.desk_core.specs.Refusals.{Says};
ghost use Rattle.desk_core.specs.Asking.{at_index, turned_into, overheads, seconds_for};
ghost use Rattle.desk_core.specs.Asking.{windows_for, is_inside, is_outside, is_past, is_fitted, made_with, tested, made_from, made_of, seen_made};

use crate::desk::Desk;
use crate::fitting::fits;
use desk_events::{CommandFault, Refusal};
use plan_base::{ListOf, Op, Sec, Span, TelescopeNo};
use request_model::{Cadence, GroupDoc, RequestDoc, When};
use request_times::{Instrument, expand_cadence, seconds_of};
use site_model::{InstrumentTimes, Network};
use std::alloc::{AllocError, Global};

/// A request that is to be made.
#[derive(Drop)]
pub(crate) struct Made<'a> {
    /// Its part of the document.
    pub asked: &'a RequestDoc,
    /// How long it takes, 1 to 86,400 seconds.
    pub seconds: u32,
    /// The windows of its part, or the one that the cadence gave it.
    pub windows: ListOf<Span>,
}

/// The overheads of an instrument type, as a duration takes them.
fn overheads(times: InstrumentTimes) -> Instrument
    ensures same { result ≡ overheads times }
    ensures range { IsOverhead result }
{
    Instrument {
        front_ms: times.front_ms,
        config_ms: times.config_ms,
        readout_ms: times.readout_ms,
        change_ms: times.change_ms,
    }
}

/// How long the request at a place takes.
fn seconds_for(network: &Network, index: u32, request: &RequestDoc) -> Result<u32, CommandFault>
    requires { AreConfigurations request.now.configurations }
    ensures { Says (λ seconds. seconds) (seconds_for network.now.registry index request.now) result }
{
    let Some(times) = network.instrument(&request.instrument) else {
        return Err(CommandFault::Refused(Refusal::NoSuchInstrument { index }));
    };
    match seconds_of(request, overheads(times)) {
        Ok(seconds) => Ok(seconds),
        Err(fault) => Err(CommandFault::from((index, fault))),
    }
}

/// A list of one list of windows.
fn one_list(alloc: Global, windows: &[Span]) -> Result<Vec<ListOf<Span>>, AllocError>
    ensures { IfOk result (λ lists. lists.items ≡ windows.now ∷ []) }
{
    let mut lists = Vec::new(alloc);
    let windows = Vec::from_slice(alloc, windows)?;
    lists.push(ListOf::from_vec(windows))?;
    Ok(lists)
}

/// Each window in a list of its own.
fn each_alone(alloc: Global, windows: &[Span]) -> Result<Vec<ListOf<Span>>, AllocError>
    ensures { IfOk result (λ lists. lists.items ≡ map (λ w. w ∷ []) windows.now) }
{
    let mut lists = Vec::new(alloc);
    for window in windows {
        let alone = Vec::from_slice(alloc, &[*window])?;
        lists.push(ListOf::from_vec(alone))?;
    }
    Ok(lists)
}

/// The windows of the requests that a cadence makes.
fn windows_of_cadence(
    alloc: Global,
    index: u32,
    cadence: Cadence,
    seconds: u32,
) -> Result<Vec<ListOf<Span>>, CommandFault>
    requires range { IsCadence cadence }
    requires seconds { seconds ≤ most_seconds }
    ensures { Says (λ lists. lists.items) (turned_into (at_index index (expansion cadence seconds)) (map (λ w. w ∷ []))) result }
{
    match expand_cadence(alloc, cadence, seconds) {
        Ok(windows) => Ok(each_alone(alloc, windows.as_slice())?),
        Err(fault) => Err(CommandFault::from((index, fault))),
    }
}

/// The windows of the requests that are made from the one at a place.
fn windows_for(
    alloc: Global,
    op: Op,
    index: u32,
    seconds: u32,
    when: &When,
) -> Result<Vec<ListOf<Span>>, CommandFault>
    requires range { IsWhen when.now }
    requires seconds { seconds ≤ most_seconds }
    ensures { Says (λ lists. lists.items) (windows_for op index seconds when.now) result }
{
    match when {
        When::Windows(windows) => Ok(one_list(alloc, windows.as_slice())?),
        When::Cadence(cadence) => {
            if !op.is_single() {
                return Err(CommandFault::Refused(Refusal::BadCadence { index }));
            }
            windows_of_cadence(alloc, index, *cadence, seconds)
        }
    }
}

/// Whether a window is inside the semester.
fn is_inside(semester: Span, window: Span) -> bool
    ensures { result ≡ is_inside semester window }
{
    semester.from <= window.from && window.to <= semester.to
}

/// Whether a window lies outside the semester, in part or whole.
fn has_outside(semester: Span, windows: &[Span]) -> bool
    ensures { result ≡ list_any (λ w. not (is_inside semester w)) windows.now }
{
    windows.iter().any(|w| !is_inside(semester, *w))
}

/// Whether a request has such a window.
fn is_outside(semester: Span, lists: &[ListOf<Span>]) -> bool
    ensures { result ≡ is_outside semester lists.now }
{
    lists.iter().any(|ws| has_outside(semester, ws.as_slice()))
}

/// Whether all windows end at or before now.
fn is_past(now: Sec, windows: &[Span]) -> bool
    ensures { result ≡ is_past now windows.now }
{
    windows.iter().all(|w| w.to <= now)
}

/// Whether all windows of one of the requests have ended.
fn has_past(now: Sec, lists: &[ListOf<Span>]) -> bool
    ensures { result ≡ list_any (is_past now) lists.now }
{
    lists.iter().any(|ws| is_past(now, ws.as_slice()))
}

/// Whether a telescope that is registered so far fits the request.
fn is_fitted(network: &Network, request: &RequestDoc) -> bool
    ensures { result ≡ is_fitted network.now.registry request.now }
{
    for telescope in 0..network.telescopes() {
        if fits(
            network,
            TelescopeNo(telescope),
            &request.location,
            &request.instrument,
        ) {
            return true;
        }
    }
    false
}

/// The requests with these windows.
fn made_with<'a>(
    alloc: Global,
    asked: &'a RequestDoc,
    seconds: u32,
    lists: Vec<ListOf<Span>>,
) -> Result<Vec<Made<'a>>, AllocError>
    ensures { IfOk result (λ made. map seen_made made.items ≡ made_with asked.now seconds lists.items) }
{
    let mut made = Vec::with_capacity(alloc, lists.len())?;
    for windows in lists {
        made.push(Made {
            asked,
            seconds,
            windows,
        })?;
    }
    Ok(made)
}

impl Desk {
    /// The requests with these windows, if nothing refuses them.
    fn tested<'a>(
        &self,
        alloc: Global,
        index: u32,
        asked: &'a RequestDoc,
        seconds: u32,
        lists: Vec<ListOf<Span>>,
    ) -> Result<Vec<Made<'a>>, CommandFault>
        ensures { Says (λ made. map seen_made made.items) (tested (seen self.now) index asked.now seconds lists.items) result }
    {
        if is_outside(self.opening.semester, lists.as_slice()) {
            return Err(CommandFault::Refused(Refusal::OutsideSemester { index }));
        }
        if has_past(self.runs.now(), lists.as_slice()) {
            return Err(CommandFault::Refused(Refusal::WindowPast { index }));
        }
        if !is_fitted(&self.network, asked) {
            return Err(CommandFault::Refused(Refusal::NoTelescope { index }));
        }
        Ok(made_with(alloc, asked, seconds, lists)?)
    }

    /// The requests that are made from the one at a place.
    fn made_from<'a>(
        &self,
        alloc: Global,
        op: Op,
        index: u32,
        asked: &'a RequestDoc,
    ) -> Result<Vec<Made<'a>>, CommandFault>
        requires { IsRequest asked.now }
        ensures { Says (λ made. map seen_made made.items) (made_from (seen self.now) op (index, asked.now)) result }
    {
        let seconds = seconds_for(&self.network, index, asked)?;
        let lists = windows_for(alloc, op, index, seconds, &asked.when)?;
        self.tested(alloc, index, asked, seconds, lists)
    }

    /// The requests that a document makes, in its order. Its requests are tested one after another; each may be refused
    /// with `NoSuchInstrument`, `TooLong`, `BadCadence`, `TooManyWindows`, `BadCadence` again where no window is left,
    /// `OutsideSemester`, `WindowPast` or `NoTelescope`, the first that comes in this order.
    pub(crate) fn made_of<'a>(
        &self,
        alloc: Global,
        document: &'a GroupDoc,
    ) -> Result<Vec<Made<'a>>, CommandFault>
        requires { IsGroup document.now }
        ensures { Says (λ made. map seen_made made.items) (made_of (seen self.now) document.now) result }
    {
        let mut made = Vec::new(alloc);
        for (index, asked) in document.requests.as_slice().iter().enumerate() {
            let mut more = self.made_from(alloc, document.op, index as u32, asked)?;
            made.append(&mut more)?;
        }
        Ok(made)
    }
}
