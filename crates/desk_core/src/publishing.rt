// `publish`: a claim that was made elsewhere, or one that a plan was sought for.

ghost use Rattle.std.specs.Prelude.{◌≡◌, ◌≤◌, length, IfOk, OnOk, OnErr, map, find};
ghost use Rattle.std.specs.Option.{option_map, option_map_or};
ghost use Rattle.plan_base.specs.Limits.{most_version};
ghost use Rattle.plan_base.specs.Verdict.{IsCertified};
ghost use Rattle.plan_doc.specs.Ranges.{AreParts};
ghost use Rattle.desk_runs.specs.Numbers.{requests_of, is_request};
ghost use Rattle.desk_events.specs.declared.reply.Reply.TheVariants as reply;
ghost use Rattle.desk_core.specs.Desk.{seen};
ghost use Rattle.desk_core.specs.Kept.{IsDesk};
ghost use Rattle.desk_core.specs.DeskSnapshot.{snapshot_of};
ghost use Rattle.desk_core.specs.Publishing.{observed, with_publication, DecidesByVerdict};

use crate::desk::{Desk, Publication};
use bound_checker::check;
use desk_events::{CommandFault, Refusal, Reply};
use desk_runs::{Observation, Request};
use plan_base::{Claim, ListOf, Placement, RequestNo, Snapshot, Verdict};
use std::alloc::{AllocError, Global};

/// What a desk keeps of a claim that it publishes.
#[derive(Drop)]
struct Copies {
    /// Its placements, with the seconds of their requests.
    observations: ListOf<Observation>,
    /// The claim itself.
    kept: Claim,
}

impl Desk {
    /// `publish`: a claim for a version, where the desk has this one.
    pub(crate) fn publish(
        &mut self,
        alloc: Global,
        version: u64,
        asked: u64,
        claim: &Claim,
    ) -> Result<Reply, CommandFault>
        requires desk { IsDesk (seen self.old) }
        requires few { length self.old.runs.groups ≤ most_version }
        requires version { version ≤ most_version }
        ensures { DecidesByVerdict version (seen self.old) asked claim.now (seen self.new) result }
    {
        if asked != version {
            return Err(Refusal::Stale {
                asked,
                newer: version,
            }
            .into());
        }
        let snapshot = self.snapshot(alloc, version)?;
        match check(alloc, &snapshot, claim)? {
            Verdict::Yes { .. } => Ok(self.publish_told(alloc, snapshot, claim)?),
            Verdict::No(reason) => Err(reason.into()),
        }
    }

    /// Publishes a claim that is certified for the desk's snapshot, and says so. Fails only for want of memory, and then changes
    /// nothing.
    fn publish_told(
        &mut self,
        alloc: Global,
        snapshot: Snapshot,
        claim: &Claim,
    ) -> Result<Reply, AllocError>
        requires desk { IsDesk (seen self.old) }
        requires few { length self.old.runs.groups ≤ most_version }
        requires snapshot { snapshot ≡ snapshot_of snapshot.version (seen self.old) }
        requires certified { IsCertified snapshot claim.now }
        ensures reply { IfOk result (λ told. told ≡ reply.Published claim.now) }
        ensures desk { OnOk result (seen self.new ≡ with_publication snapshot.version claim.now (seen self.old)) }
        ensures unchanged { OnErr result (seen self.new ≡ seen self.old) }
    {
        let told = claim.copy()?;
        self.publish_certified(alloc, snapshot, claim)?;
        Ok(Reply::Published { claim: told })
    }

    /// Publishes a claim that is certified for the desk's snapshot: its placements replace those that haven't started, and
    /// it is kept with the snapshot. Fails only for want of memory, and then changes nothing.
    pub(crate) fn publish_certified(
        &mut self,
        alloc: Global,
        snapshot: Snapshot,
        claim: &Claim,
    ) -> Result<(), AllocError>
        requires desk { IsDesk (seen self.old) }
        requires few { length self.old.runs.groups ≤ most_version }
        requires snapshot { snapshot ≡ snapshot_of snapshot.version (seen self.old) }
        requires certified { IsCertified snapshot claim.now }
        ensures desk { OnOk result (seen self.new ≡ with_publication snapshot.version claim.now (seen self.old)) }
        ensures unchanged { OnErr result (seen self.new ≡ seen self.old) }
    {
        self.recall_document(&snapshot);
        let Copies { observations, kept } = self.copies_for(alloc, claim)?;
        self.runs.publish(observations);
        self.published = Some(Publication::new(snapshot, kept));
        Ok(())
    }

    /// Recalls that the desk's snapshot has a document. It does nothing.
    fn recall_document(&self, snapshot: &Snapshot)
        requires desk { IsDesk (seen self.now) }
        requires few { length self.now.runs.groups ≤ most_version }
        requires snapshot { snapshot.now ≡ snapshot_of snapshot.now.version (seen self.now) }
        ensures { AreParts snapshot.now }
    {
        self.recall_few();
        snapshot.recall_valid();
    }

    /// What is kept of a claim. Fails only for want of memory.
    fn copies_for(&self, alloc: Global, claim: &Claim) -> Result<Copies, AllocError>
        ensures observations { IfOk result (λ copies. copies.observations ≡ map (observed (seen self.now)) claim.now.placements) }
        ensures kept { IfOk result (λ copies. copies.kept ≡ claim.now) }
    {
        Ok(Copies {
            observations: self.observations(alloc, claim.placements.as_slice())?,
            kept: claim.copy()?,
        })
    }

    /// How long a request takes; nothing where there is none with the number.
    fn seconds_of(&self, number: RequestNo) -> u32
        ensures { result ≡ option_map_or (λ q. q.seconds) (find (is_request number) (requests_of self.now.runs.groups)) 0 }
    {
        match self.runs.group_with(number) {
            Some(group) => seconds_in(group.requests.as_slice(), number).unwrap_or(0),
            None => 0,
        }
    }

    /// A placement with the seconds of its request.
    fn observed(&self, placement: &Placement) -> Observation
        ensures { result ≡ observed (seen self.now) placement.now }
    {
        Observation {
            request: placement.request,
            telescope: placement.telescope,
            slice: placement.slice,
            seconds: self.seconds_of(placement.request),
        }
    }

    /// Placements with the seconds of their requests.
    fn observations(
        &self,
        alloc: Global,
        placements: &[Placement],
    ) -> Result<ListOf<Observation>, AllocError>
        ensures { IfOk result (λ list. list ≡ map (observed (seen self.now)) placements.now) }
    {
        let mut observations = ListOf::new(alloc);
        for placement in placements {
            observations.push(self.observed(placement))?;
        }
        Ok(observations)
    }
}

/// How long the request with a number takes.
fn seconds_in(requests: &[Request], number: RequestNo) -> Option<u32>
    ensures { result ≡ option_map (λ q. q.seconds) (find (is_request number) requests.now) }
{
    requests
        .iter()
        .find(|q| q.number.0 == number.0)
        .map(|q| q.seconds)
}
