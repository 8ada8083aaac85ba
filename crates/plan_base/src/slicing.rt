// Seconds as slices, and values that fade by the slice.

ghost use Rattle.std.specs.Prelude.{◌≡◌, ◌≤◌, map, fold, min, All};
ghost use Rattle.plan_base.specs.Limits.{most_value, least_len, most_len, most_fade};
ghost use Rattle.plan_base.specs.Snapshot.{IsMoment};
ghost use Rattle.plan_base.specs.Starts.{slices_for, least_of, faded};

use crate::span::Span;

/// How many slices of `len` seconds (60 to 3,600) so many seconds take, the last one perhaps in part: the size of an
/// observation, or the first slice that doesn't begin before a moment.
pub fn slices_for(len: u64, seconds: u64) -> u64
    requires least { least_len ≤ len }
    requires most { len ≤ most_len }
    requires seconds { IsMoment seconds }
    ensures value { result ≡ slices_for len seconds }
    ensures most { result ≤ seconds }
{
    (seconds + len - 1) / len
}

/// What is left of a value after so many slices of delay, where it loses `fade` thousandths with each (0 to 1,000):
/// never below 1.
pub fn faded(value: u64, fade: u64, delay: u64) -> u64
    requires value { value ≤ most_value }
    requires fade { fade ≤ most_fade }
    ensures value { result ≡ faded value fade delay }
    ensures most { result ≤ most_value }
{
    value
        .saturating_sub(value * fade * delay.min(1000) / 1000)
        .max(1)
}

/// The first second of the window that begins first, or 0 where there is none.
pub fn least_from(windows: &[Span]) -> u64
    requires moments { All (λ w. IsMoment w.from.0) windows.now }
    ensures least { result ≡ least_of (map (λ w. w.from.0) windows.now) }
    ensures moment { IsMoment result }
{
    match windows {
        [] => 0,
        [first, rest @ ..] => least_after(first.from.0, rest),
    }
}

/// The least of a moment and the first seconds of windows.
fn least_after(first: u64, windows: &[Span]) -> u64
    ensures least { result ≡ fold min first (map (λ w. w.from.0) windows.now) }
    ensures most { result ≤ first }
{
    let mut least = first;
    for window in windows {
        least = least.min(window.from.0);
    }
    least
}
