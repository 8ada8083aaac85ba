// Slices in a row at which an observation may begin, or may not.

ghost use Rattle.std.specs.Prelude.{◌≡◌, ℕ, ◌+◌, ◌*◌, ◌≤◌, ◌<◌, ◌^◌, false, All};
ghost use Rattle.std.specs.List.Sorted.{IsPartitionPoint};
ghost use Rattle.plan_base.specs.Snapshot.{IsMoment, IsSortedApart};
ghost use Rattle.bound_checker.specs.Stretches.{IsObservation, DoesFitIn, DoesFit, IsStretch};

use plan_base::Span;

/// How long a slice is, and how long an observation takes.
#[derive(Clone, Copy)]
pub struct Observation {
    /// The seconds of a slice, 60 to 3,600.
    pub len: u64,
    /// The seconds of the observation, 1 to 86,400.
    pub seconds: u64,
}

/// Slices in a row that are alike: an observation that begins at any of them fits, or at none.
#[derive(Clone, Copy)]
pub struct Stretch {
    /// Whether it fits at each of them.
    pub fits: bool,
    /// The slice after the last.
    pub end: u64,
}

/// Slices without end at which nothing fits.
const NEVER: Stretch = Stretch {
    fits: false,
    end: u64::MAX,
};

/// The stretch from a slice on of an observation inside one of these spans, which come in any order.
pub(crate) fn stretch_in_any(spans: &[Span], observation: Observation, slice: u64) -> Stretch
    requires observation { IsObservation observation }
    requires slice { slice < 2 ^ 32 }
    requires moments { All (λ w. IsMoment w.from.0 × IsMoment w.to.0) spans.now }
    ensures { IsStretch (DoesFit spans.now observation) slice result }
{
    let mut end = u64::MAX;
    for span in spans {
        let stretch = stretch_in(*span, observation, slice);
        if stretch.fits {
            return stretch;
        }
        end = end.min(stretch.end);
    }
    Stretch { fits: false, end }
}

/// The stretch from a slice on of an observation inside one of these spans, which have gaps between them.
pub(crate) fn stretch_in_sorted(spans: &[Span], observation: Observation, slice: u64) -> Stretch
    requires observation { IsObservation observation }
    requires slice { slice < 2 ^ 32 }
    requires moments { All (λ w. IsMoment w.from.0 × IsMoment w.to.0) spans.now }
    requires apart { IsSortedApart spans.now }
    ensures { IsStretch (DoesFit spans.now observation) slice result }
{
    let end = slice * observation.len + observation.seconds;
    match spans.get(first_to(spans, end)) {
        Some(span) => stretch_in(*span, observation, slice),
        None => NEVER,
    }
}

/// The stretch from a slice on of an observation inside this span.
fn stretch_in(span: Span, observation: Observation, slice: u64) -> Stretch
    requires observation { IsObservation observation }
    requires slice { slice < 2 ^ 32 }
    requires from { IsMoment span.from.0 }
    requires to { IsMoment span.to.0 }
    ensures stretch { IsStretch (DoesFitIn span observation) slice result }
    ensures early { result.fits ≡ false → slice * observation.len + observation.seconds ≤ span.to.0
        → (j : ℕ) → j < result.end → j * observation.len < span.from.0 }
{
    let Observation { len, seconds } = observation;
    if span.to.0 < slice * len + seconds {
        return NEVER;
    }
    let first = (span.from.0 + len - 1) / len;
    if slice < first {
        return Stretch {
            fits: false,
            end: first,
        };
    }
    Stretch {
        fits: true,
        end: (span.to.0 - seconds) / len + 1,
    }
}

/// The place of the first span that doesn't end before a second.
pub(crate) fn first_to(spans: &[Span], end: u64) -> usize
    requires { IsSortedApart spans.now }
    ensures { IsPartitionPoint (λ w. w.to.0 < end) (λ w. end ≤ w.to.0) spans.now result }
{
    spans.partition_point(|span| span.to.0 < end)
}
