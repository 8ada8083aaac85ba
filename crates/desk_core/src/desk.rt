// What an opened desk keeps.

ghost use Rattle.std.specs.Prelude.{◌≡◌, ◌≤◌, ◌-◌, Some, length, slice_get};
ghost use Rattle.plan_doc.specs.Ranges.{AreParts};
ghost use Rattle.desk_core.specs.Publication.{PublicationSeen};

use allocations::Ledger;
use desk_runs::Runs;
use plan_base::{Claim, GroupNo, ListOf, Name, Settings, Snapshot, Span, TargetNo};
use request_model::{GroupDoc, Location};
use site_model::Network;
use std::marker::Model;

/// What a desk was opened with, beside its moment.
#[derive(Clone, Copy)]
pub struct Opening {
    /// How long a slice is, 60 to 3,600 seconds.
    pub slice: u32,
    /// How many slices the horizon has, 1 to 1,440.
    pub horizon: u32,
    /// All windows of all requests lie in it.
    pub semester: Span,
    /// How plans are sought.
    pub settings: Settings,
    /// The most seconds of one proposal in a plan, 1 to 100,000,000, where there is such a limit.
    pub quota: Option<u64>,
}

/// What is kept of a request beside its number, its seconds and its state.
pub struct Wanted {
    /// Where it may be observed.
    pub location: Location,
    /// The instrument type that takes it.
    pub instrument: Name,
    /// The least percent, 0 to 100, that has to be taken for it to be completed.
    pub threshold: u8,
    /// The thousandths of the value, 0 to 1,000, that are lost with each slice of delay.
    pub fade: u16,
    /// What it is worth at its earliest slice, 1 to 288,000,000.
    pub value: u32,
    /// It lies inside one of these: those of its document, or the one that its cadence gave it.
    pub windows: ListOf<Span>,
    /// The numbers of its targets, each once, rising.
    pub targets: ListOf<TargetNo>,
}

// These values have many parts, so each has a `drop` of its own: a function that leaves one behind then makes one call, whose proof
// doesn't follow the value's parts.
impl Drop for Wanted {
    fn drop(self) {
        let Self {
            location: _,
            instrument: _,
            threshold: _,
            fade: _,
            value: _,
            windows: _,
            targets: _,
        } = self;
    }
}

/// A group as it was submitted.
pub struct Submitted {
    /// What it was submitted with.
    pub document: GroupDoc,
    /// The seconds that its proposal's ipp account was charged when it was submitted.
    pub charged: u64,
    /// The requests that were made from the document, in the order of their numbers.
    pub requests: ListOf<Wanted>,
}

impl Drop for Submitted {
    fn drop(self) {
        let Self {
            document: _,
            charged: _,
            requests: _,
        } = self;
    }
}

/// A claim that was published, and the snapshot that it was published for, of which a document can be made.
pub struct Publication {
    snapshot: Snapshot,
    claim: Claim,
}

impl Drop for Publication {
    fn drop(self) {
        let Self {
            snapshot: _,
            claim: _,
        } = self;
    }
}

impl Model for Publication {
    ghost Value = { PublicationSeen };

    ghost view = { λ a. record { snapshot = a.snapshot; claim = a.claim } };

    ghost invariant = { λ a. AreParts a.snapshot };
}

impl Publication {
    /// The publication of a claim for the snapshot.
    pub(crate) fn new(snapshot: Snapshot, claim: Claim) -> Publication
        requires { AreParts snapshot }
        ensures { result ≡ record { snapshot = snapshot; claim = claim } }
    {
        Publication { snapshot, claim }
    }

    /// What the desk had to plan then.
    pub fn snapshot(&self) -> &Snapshot
        ensures snapshot { result.now ≡ self.now.snapshot }
        ensures ranges { AreParts self.now.snapshot }
    {
        &self.snapshot
    }

    /// What was published for it.
    pub fn claim(&self) -> &Claim
        ensures { result.now ≡ self.now.claim }
    {
        &self.claim
    }
}

/// An opened desk. Its groups stand twice, in one order: as they were submitted, and how far they have come.
pub struct Desk {
    pub(crate) opening: Opening,
    pub(crate) network: Network,
    pub(crate) ledger: Ledger,
    pub(crate) submitted: Vec<Submitted>,
    pub(crate) runs: Runs,
    pub(crate) published: Option<Publication>,
}

impl Drop for Desk {
    fn drop(self) {
        let Self {
            opening: _,
            network: _,
            ledger: _,
            submitted: _,
            runs: _,
            published: _,
        } = self;
    }
}

impl Desk {
    /// The group with a number, as it was submitted.
    pub(crate) fn submission(&self, number: GroupNo) -> &Submitted
        requires { (1 ≤ number.0) × (number.0 ≤ length self.now.submitted.items) }
        ensures { slice_get self.now.submitted.items (number.0 - 1) ≡ Some result.now }
    {
        &self.submitted.as_slice()[number.0 as usize - 1]
    }
}
