// The windows of a cadence.

ghost use Rattle.std.specs.Prelude.{◌≡◌, ◌≢◌, ◌<◌, ◌≤◌, ◌^◌, length, true, IfOk, IfErr, Ok, Err};
ghost use Rattle.plan_base.specs.Limits.{most_seconds, most_members};
ghost use Rattle.plan_json.specs.Ranges.{IsBetween};
ghost use Rattle.request_model.specs.Ranges.{IsCadence};
ghost use Rattle.request_model.specs.declared.time_fault.TimeFault.TheVariants.{NoMemory};
ghost use Rattle.request_times.specs.Cadence.{centre, centre_count, window, is_long, windows_of, is_cadence, expansion};

use plan_base::{MOST_MEMBERS, Sec, Span};
use request_model::{Cadence, TimeFault};
use std::alloc::{AllocError, Global};

/// The windows of the cadence, in order, for a request of so many seconds, 1 to 86,400: one round each centre, half of
/// the jitter before it, rounded down, and the rest from it on, cut at start and end, and dropped where what is left is
/// shorter than the request. Fails with [`TimeFault::BadCadence`] where period or jitter is 0 or the start isn't before
/// the end; then with [`TimeFault::TooManyWindows`] where there are more than 256 centres; then with
/// [`TimeFault::BadCadence`] where no window is left; and for want of memory, where there are windows to make.
pub fn expand_cadence(alloc: Global, cadence: Cadence, seconds: u32) -> Result<Vec<Span>, TimeFault>
    requires range { IsCadence cadence }
    requires seconds { seconds ≤ most_seconds }
    ensures value { IfOk result (λ windows. expansion cadence seconds ≡ Ok windows.items) }
    ensures fault { IfErr result (λ e. e ≢ NoMemory → expansion cadence seconds ≡ Err e) }
    ensures memory { IfErr result (λ e. e ≡ NoMemory → (is_cadence cadence ≡ true) × (centre_count cadence ≤ most_members)) }
    ensures count { IfOk result (λ windows. IsBetween 1 most_members (length windows.items)) }
{
    if !is_cadence(cadence) {
        return Err(TimeFault::BadCadence);
    }
    let count = centre_count(cadence);
    if count > MOST_MEMBERS as u64 {
        return Err(TimeFault::TooManyWindows { count });
    }
    let windows = windows_of(alloc, cadence, seconds, count as u32)?;
    if windows.is_empty() {
        return Err(TimeFault::BadCadence);
    }
    Ok(windows)
}

/// Whether there is a period and a jitter, and the start comes before the end.
fn is_cadence(cadence: Cadence) -> bool
    ensures { result ≡ is_cadence cadence }
{
    0 < cadence.period && 0 < cadence.jitter && cadence.start < cadence.end
}

/// How many centres lie below the end.
fn centre_count(cadence: Cadence) -> u64
    requires period { 0 < cadence.period }
    requires order { cadence.start.0 ≤ cadence.end.0 }
    ensures { result ≡ centre_count cadence }
{
    (cadence.end.0 - cadence.start.0).div_ceil(cadence.period)
}

/// The windows of the first centres, without those that are too short.
fn windows_of(
    alloc: Global,
    cadence: Cadence,
    seconds: u32,
    count: u32,
) -> Result<Vec<Span>, AllocError>
    requires range { IsCadence cadence }
    requires seconds { seconds ≤ most_seconds }
    ensures value { IfOk result (λ windows. windows.items ≡ windows_of cadence seconds count) }
    ensures few { IfOk result (λ windows. length windows.items ≤ count) }
{
    (0..count)
        .map(|k| window_at(cadence, k))
        .filter(|window| is_long(*window, seconds))
        .collect(alloc)
}

/// Whether the window is no shorter than the request.
fn is_long(window: Span, seconds: u32) -> bool
    ensures { result ≡ is_long seconds window }
{
    window.from.0 <= window.to.0 && u64::from(seconds) <= window.to.0 - window.from.0
}

/// The window round a centre.
fn window_at(cadence: Cadence, k: u32) -> Span
    requires { IsCadence cadence }
    ensures { result ≡ window cadence (centre cadence k) }
{
    let centre = centre(cadence, k);
    let before = cadence.jitter / 2;
    let from = cadence.start.0.max(centre.saturating_sub(before));
    let to = cadence.end.0.min(centre + (cadence.jitter - before));
    Span {
        from: Sec(from),
        to: Sec(to),
    }
}

#[tactic(auto, using(crate::proofs::Centres::product_fits))]
fn centre(cadence: Cadence, k: u32) -> u64
    requires { IsCadence cadence }
    ensures value { result ≡ centre cadence k }
    ensures small { result < 2 ^ 60 }
{
    cadence.start.0 + u64::from(k) * cadence.period
}
