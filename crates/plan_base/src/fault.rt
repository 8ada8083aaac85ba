// Why parts aren't a snapshot.

use crate::number::{GroupNo, RequestNo, TelescopeNo};
use std::alloc::AllocError;
use thiserror::Error;

/// What is counted in a snapshot's parts, in the order in which the counts are tested.
#[derive(Clone, Copy, Debug)]
pub enum Counted {
    /// All telescopes, at most 32.
    Telescopes,
    /// The usable spans of one telescope, at most 2,048.
    Usable,
    /// All skies, at most 32,768.
    Skies,
    /// The spans of all skies, at most 262,144.
    Spans,
    /// All groups, at most 1,024.
    Groups,
    /// All requests, at most 1,024.
    Requests,
    /// The windows of one request, at most 32.
    Windows,
    /// The targets of one request, at most 16.
    Targets,
    /// The telescopes of one request, at most 32.
    Fits,
    /// All quotas, at most 1,024.
    Quotas,
}

/// The first thing, in this order, that is wrong with a snapshot's parts. Want of memory may come in place of any.
#[derive(Clone, Copy, Debug, Error)]
pub enum SnapshotFault {
    /// More is counted than the limit; of several telescopes or requests above it, the first one's count is given.
    #[error("{count} are too many of {what:?}")]
    OverLimit { what: Counted, count: u64 },
    /// A usable span, a span of a sky or a window has no second.
    #[error("a span has no second")]
    EmptySpan,
    /// A list of usable spans or of a sky isn't sorted with gaps, or the skies don't rise by target, then site.
    #[error("spans or skies are not in order, or touch")]
    NotApart,
    /// This group's number doesn't rise over the one before it.
    #[error("the number of group {0:?} does not rise")]
    GroupOrder(GroupNo),
    /// This request's number doesn't rise over the one before it.
    #[error("the number of request {0:?} does not rise")]
    RequestOrder(RequestNo),
    /// This group has no request, or more than 1 in a `SINGLE`, 256 in a `MANY`, 32 in the others.
    #[error("group {0:?} has another number of requests than its kind")]
    BadShape(GroupNo),
    /// A request names this telescope, which isn't there or doesn't rise over the one before it.
    #[error("telescope {0:?} is not there or does not rise")]
    NoSuchTelescope(TelescopeNo),
    /// This request fades by more than 1,000 thousandths a slice.
    #[error("request {0:?} fades by more than all")]
    FadeRange(RequestNo),
    /// This group names a quota that isn't in the list.
    #[error("group {0:?} names a quota that is not there")]
    NoSuchQuota(GroupNo),
    /// The quota at this place is above 100,000,000 seconds.
    #[error("quota {index} is too great")]
    QuotaRange { index: u32 },
    /// There is no memory left.
    #[error("out of memory")]
    NoMemory,
}

impl From<AllocError> for SnapshotFault {
    ghost use Rattle.std.specs.Prelude.{◌≡◌};
    ghost use Rattle.plan_base.specs.declared.fault.SnapshotFault.TheVariants.{NoMemory};

    ghost from_gives = { λ _ fault. fault ≡ NoMemory };

    fn from(_: AllocError) -> Self {
        SnapshotFault::NoMemory
    }
}
