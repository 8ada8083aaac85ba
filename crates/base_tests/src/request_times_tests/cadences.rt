// Which windows cadences have.

ghost use Rattle.std.specs.Prelude.{IsTrue};
ghost use Rattle.request_model.specs.Ranges.{IsCadence};

use plan_base::{Sec, Span};
use request_model::Cadence;
use request_times::expand_cadence;
use std::alloc::{AllocError, Global};
use std::test::Fail;

/// Start, end, period and jitter of a cadence, the seconds of its request, and the windows or the fault.
type Row = (u64, u64, u64, u64, u32, &'static str);

/// The last moment.
const LAST: u64 = 253_402_300_799;

const NONE: &str = "the cadence has no windows";

const ROWS: [Row; 23] = [
    // Windows stand round the centres below the end.
    (0, 10_000, 3_600, 1_200, 700, "3000-4200 6600-7800 "),
    (0, 10_000, 3_600, 1_200, 600, "0-600 3000-4200 6600-7800 "),
    (0, 7_200, 3_600, 1_200, 600, "0-600 3000-4200 "),
    (0, 7_201, 3_600, 1_200, 601, "3000-4200 6600-7201 "),
    // They are cut before they are measured.
    (0, 4_000, 3_600, 1_200, 700, "3000-4000 "),
    (0, 4_000, 3_600, 1_200, 1_000, "3000-4000 "),
    (0, 4_000, 3_600, 1_200, 1_001, NONE),
    (0, 3_601, 3_600, 1_200, 601, "3000-3601 "),
    (0, 3_601, 3_600, 1_200, 602, NONE),
    // Half of an odd jitter is rounded down.
    (100, 1_000, 500, 5, 3, "100-103 598-603 "),
    (100, 1_000, 500, 1, 1, "100-101 600-601 "),
    // There are at most 256 centres.
    (0, 2_560, 10, 2_560, 2_560, "0-2560 "),
    (
        0,
        2_561,
        10,
        2_560,
        2_560,
        "the cadence has 257 centres, more than 256",
    ),
    (
        0,
        LAST,
        10,
        2_560,
        2_560,
        "the cadence has 25340230080 centres, more than 256",
    ),
    // Period, jitter and order are tested first.
    (0, 10_000, 0, 1_200, 1, NONE),
    (0, 10_000, 3_600, 0, 1, NONE),
    (0, LAST, 1, 0, 1, NONE),
    (5_000, 5_000, 3_600, 1_200, 1, NONE),
    (5_001, 5_000, 3_600, 1_200, 1, NONE),
    (0, 0, 0, 0, 1, NONE),
    // The last moments have windows.
    (
        LAST - 86_400,
        LAST,
        15_552_000,
        15_552_000,
        86_400,
        "253402214399-253402300799 ",
    ),
    (LAST - 1, LAST, 1, 1, 1, "253402300798-253402300799 "),
    (LAST, LAST, 1, 1, 1, NONE),
];

/// Whether a document may have such a cadence.
fn is_cadence(cadence: Cadence) -> bool
    ensures { IsTrue result → IsCadence cadence }
{
    cadence.start.0 <= LAST
        && cadence.end.0 <= LAST
        && cadence.period <= 15_552_000
        && cadence.jitter <= 15_552_000
}

/// Each window's ends.
fn ends_of(alloc: Global, windows: &[Span]) -> Result<String, AllocError> {
    let mut text = String::new(alloc);
    for window in windows {
        let ends = format!(in alloc; "{}-{} ", window.from.0, window.to.0)?;
        text.push_str(ends.as_str())?;
    }
    Ok(text)
}

/// The windows or the fault of a row.
fn answer(alloc: Global, row: &Row) -> Result<String, Fail> {
    let (start, end, period, jitter, seconds, _) = *row;
    let cadence = Cadence {
        start: Sec(start),
        end: Sec(end),
        period,
        jitter,
    };
    if !is_cadence(cadence) || seconds > 86_400 {
        return Err(Fail::new("a number is out of its range"));
    }
    match expand_cadence(alloc, cadence, seconds) {
        Ok(windows) => Ok(ends_of(alloc, windows.as_slice())?),
        Err(fault) => Ok(format!(in alloc; "{fault}")?),
    }
}

#[test]
fn cadences_have_windows(rt: HostRuntime) -> Result<(), Fail> {
    for row in ROWS.iter() {
        let found = answer(rt.alloc(), row)?;
        assert!(rt; found.as_str() == row.5, "{found} in place of {}", row.5);
    }
    Ok(())
}
