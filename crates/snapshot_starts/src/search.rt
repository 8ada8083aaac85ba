// The search for the starts of a snapshot, beside those of an earlier one.

ghost use Rattle.std.specs.Prelude.{◌≡◌, ◌≤◌, IfSome, IfOk};
ghost use Rattle.plan_base.specs.Limits.{most_seconds};
ghost use Rattle.snapshot_starts.specs.Pairs.{CanStart, ArePairSlices};
ghost use Rattle.snapshot_starts.specs.Slices.{AreSlices};
ghost use Rattle.snapshot_starts.specs.Mending.{IsRequest, IsSteadyPair};

use crate::held::Held;
use crate::mend::mended_slices;
use crate::pair::{Pair, PairSlices};
use crate::slices::start_slices;
use crate::steady::Steady;
use crate::telescope::telescope_at;
use interval_set::Spans;
use plan_base::{RequestPart, Snapshot, TelescopeNo};
use std::alloc::{AllocError, Global};
use std::marker::Model;

/// A snapshot whose starts are sought, and what of an earlier one still holds. Contracts see the snapshot's parts.
pub(crate) struct Search<'a> {
    snapshot: &'a Snapshot,
    earlier: Option<&'a Held>,
    steady: Steady,
}

impl Drop for Search<'_> {
    fn drop(self) {
        let Self {
            snapshot: _,
            earlier: _,
            steady: _,
        } = self;
    }
}

impl<'a> Model for Search<'a> {
    ghost use Rattle.std.specs.Prelude.{IfSome};
    ghost use Rattle.plan_base.specs.declared.parts.Parts.{Parts};
    ghost use Rattle.snapshot_starts.specs.Mending.{AreSteady};

    ghost Value = { Parts };

    ghost view = { λ a. a.snapshot.now };

    ghost invariant = { λ a. IfSome a.earlier (λ held. AreSteady held.now a.snapshot.now a.steady) };
}

impl<'a> Search<'a> {
    /// The search that knows of no earlier snapshot. It takes no memory.
    pub(crate) fn afresh(alloc: Global, snapshot: &'a Snapshot) -> Search<'a>
        ensures { result ≡ snapshot.now }
    {
        Search {
            snapshot,
            earlier: None,
            steady: Steady::nothing(alloc),
        }
    }

    /// The search that takes from an earlier snapshot what still holds. Fails only for want of memory.
    pub(crate) fn after(
        alloc: Global,
        held: &'a Held,
        snapshot: &'a Snapshot,
    ) -> Result<Search<'a>, AllocError>
        ensures { IfOk result (λ search. search ≡ snapshot.now) }
    {
        let steady = Steady::between(alloc, held.snapshot(), snapshot)?;
        Ok(Search {
            snapshot,
            earlier: Some(held),
            steady,
        })
    }

    /// The snapshot whose starts are sought.
    pub(crate) fn snapshot(&self) -> &Snapshot
        ensures { result.now ≡ self.now }
    {
        self.snapshot
    }

    /// The earlier snapshot, where all that the starts of the request on the telescope depend on is known to be as it was.
    fn steady_for(&self, request: &RequestPart, telescope: TelescopeNo) -> Option<&Held>
        requires { IsRequest self.now request.now }
        ensures { IfSome result (λ held. IsSteadyPair held.now self.now request.now.request.0 telescope.0) }
    {
        let held = self.earlier?;
        let part = telescope_at(self.snapshot.parts(), telescope)?;
        if self.steady.has_pair(request, telescope, part.site) {
            Some(held)
        } else {
            None
        }
    }

    /// The slices at which the request may start on the telescope. Fails only for want of memory.
    fn slices_for(
        &self,
        alloc: Global,
        request: &RequestPart,
        telescope: TelescopeNo,
    ) -> Result<Spans, AllocError>
        requires seconds { request.now.seconds ≤ most_seconds }
        requires known { IsRequest self.now request.now }
        ensures { IfOk result (AreSlices (CanStart self.now request.now telescope)) }
    {
        let parts = self.snapshot.parts();
        match self.steady_for(request, telescope) {
            Some(held) => mended_slices(alloc, held, parts, request, telescope),
            None => start_slices(alloc, parts, request, telescope),
        }
    }

    /// The slices at which the pair has a possible start. Fails only for want of memory.
    pub(crate) fn slices_of_pair(&self, alloc: Global, pair: Pair) -> Result<PairSlices, AllocError>
        ensures pair { IfOk result (λ x. x.pair ≡ pair) }
        ensures slices { IfOk result (ArePairSlices self.now) }
    {
        self.snapshot.recall_valid();
        let Some(place) = self.snapshot.place_of(pair.request) else {
            let slices = Spans::empty(alloc);
            return Ok(PairSlices { pair, slices });
        };
        let request = self.snapshot.request_at(place);
        let slices = self.slices_for(alloc, request, pair.telescope)?;
        Ok(PairSlices { pair, slices })
    }
}
