// Parts to which no fault applies, with a row for each request.

ghost use Rattle.std.specs.Prelude.{◌≡◌, ◌≢◌, ◌≤◌, ◌<◌, length, None, Some, All, Contains, OnOk, IfOk, IfErr, MatchOption, SomeIff, HoldsAt};
ghost use Rattle.plan_base.specs.Limits.{most_pending};
ghost use Rattle.plan_base.specs.Requests.{listed, place_of, IsKnown};
ghost use Rattle.plan_base.specs.Skies.{IsSkyOf};
ghost use Rattle.plan_base.specs.Snapshot.{IsInRanges, IsSnapshot, IsOrderly, fault_of};

use crate::build::fault_within_limits;
use crate::counts::limit_fault;
use crate::fault::SnapshotFault;
use crate::number::{RequestNo, SiteNo, TargetNo};
use crate::parts::{Parts, RequestPart, Sky};
use crate::rows::{Row, rows_of, search_rows};
use crate::sky::sky_of;
use std::alloc::{AllocError, Global};
use std::marker::Model;

/// What one desk has to plan at one version. Contracts see its parts.
pub struct Snapshot {
    parts: Parts,
    rows: Vec<Row>,
}

impl Drop for Snapshot {
    fn drop(self) {
        let Self { parts: _, rows: _ } = self;
    }
}

impl Model for Snapshot {
    ghost use Rattle.std.specs.Prelude.{◌≡◌};
    ghost use Rattle.plan_base.specs.declared.parts.Parts.{Parts};
    ghost use Rattle.plan_base.specs.Snapshot.{IsSnapshot};
    ghost use Rattle.plan_base.specs.Rows.{rows_from};

    ghost Value = { Parts };

    ghost view = { λ a. a.parts };

    ghost invariant = { λ a. IsSnapshot a.parts × (a.rows.items ≡ rows_from 0 a.parts.groups) };
}

impl Snapshot {
    /// The snapshot of these parts, whose numbers are in the ranges that [`Parts::is_in_ranges`] asks for. Of what else may
    /// be wrong, the first thing is the error, in the order of [`SnapshotFault`], each tested over all parts before the
    /// next.
    pub fn build(alloc: Global, parts: Parts) -> Result<Snapshot, SnapshotFault>
        requires { IsInRanges parts }
        ensures ok { IfOk result (λ s. s ≡ parts) }
        ensures faultless { OnOk result (fault_of parts ≡ None) }
        ensures err { IfErr result (λ f. f ≢ SnapshotFault.NoMemory → fault_of parts ≡ Some f) }
    {
        if let Some(fault) = limit_fault(&parts)? {
            return Err(fault);
        }
        let rows = rows_of(alloc, parts.groups.as_slice())?;
        if let Some(fault) = fault_within_limits(&parts, rows.as_slice()) {
            return Err(fault);
        }
        Ok(Snapshot { parts, rows })
    }

    /// The parts.
    pub fn parts(&self) -> &Parts
        ensures value { result.now ≡ self.now }
        ensures valid { IsSnapshot self.now }
        ensures orderly { IsOrderly self.now }
    {
        &self.parts
    }

    /// How many requests there are, at most 1,024.
    pub fn request_count(&self) -> usize
        ensures value { result ≡ length (listed self.now) }
        ensures few { result ≤ most_pending }
    {
        self.rows.len()
    }

    /// The place of a request among all, if it is one of them. It looks by halves, and takes no memory.
    pub fn place_of(&self, request: RequestNo) -> Option<usize>
        ensures { SomeIff result (IsKnown self.now request.0) (place_of self.now request.0) }
    {
        search_rows(self.rows.as_slice(), request).ok()
    }

    /// The place among all of a request that is one of them.
    pub fn known_place(&self, request: RequestNo) -> usize
        requires { IsKnown self.now request.0 }
        ensures value { result ≡ place_of self.now request.0 }
        ensures within { result < length (listed self.now) }
    {
        match self.place_of(request) {
            Some(place) => place,
            None => unreachable!(),
        }
    }

    /// The place of the group of the request at a place.
    pub fn group_at(&self, place: usize) -> usize
        requires { place < length (listed self.now) }
        ensures value { HoldsAt (λ x. x.group ≡ result) (listed self.now) place }
        ensures within { result < length self.now.groups }
    {
        self.rows[place].group
    }

    /// The request at a place.
    pub fn request_at(&self, place: usize) -> &RequestPart
        requires { place < length (listed self.now) }
        ensures { HoldsAt (λ x. x.request ≡ result.now) (listed self.now) place }
    {
        let row = self.rows[place];
        &self.parts.groups.as_slice()[row.group].requests.as_slice()[row.place]
    }

    /// When the target can be observed from the site, if it has a sky there. It looks by halves.
    pub fn sky_of(&self, target: TargetNo, site: SiteNo) -> Option<&Sky>
        ensures { MatchOption result
            (All (λ sky. ¬ (IsSkyOf target.0 site.0 sky)) self.now.skies)
            (λ sky. Contains self.now.skies sky.now × IsSkyOf target.0 site.0 sky.now) }
    {
        sky_of(self.parts().skies.as_slice(), target, site)
    }

    /// Recalls, where a proof needs it, what the type keeps of the parts. It does nothing.
    pub fn recall_valid(&self)
        ensures valid { IsSnapshot self.now }
        ensures orderly { IsOrderly self.now }
        ensures few { length (listed self.now) ≤ most_pending }
    {
        let _ = self.parts();
        let _ = self.request_count();
    }
}

impl Clone for Snapshot {
    ghost is_clone = { λ x y. y ≡ x };

    fn clone(&self) -> Result<Snapshot, AllocError> {
        Ok(Snapshot {
            parts: self.parts.copy()?,
            rows: self.rows.clone()?,
        })
    }
}
