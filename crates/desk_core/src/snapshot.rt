// The snapshot of the desk, of which a plan is made.

ghost use Rattle.std.specs.Prelude.{◌≡◌, ◌≤◌, [], Some, IfOk, OnOk, length, map};
ghost use Rattle.plan_base.specs.Limits.{most_version, most_pending};
ghost use Rattle.plan_base.specs.Snapshot.{IsSnapshot};
ghost use Rattle.site_model.specs.Names.{number_of, numbered};
ghost use Rattle.desk_runs.specs.declared.group.Group.{Group};
ghost use Rattle.desk_core.specs.declared.desk.Submitted.{Submitted};
ghost use Rattle.desk_core.specs.Desk.{seen};
ghost use Rattle.desk_core.specs.Kept.{IsDesk};
ghost use Rattle.desk_core.specs.DeskSnapshot.{both_at, IsGroupNo, listed_groups, proposals_of, quota_place, quotas_of};
ghost use Rattle.desk_core.specs.DeskSnapshot.{group_part, with_numbers_of, group_targets, part_targets, skies_of, snapshot_of, IsHorizonSet, HasFew};

use crate::desk::Desk;
use crate::targets::as_targets;
use indexmap::IndexSet;
use interval_set::Spans;
use plan_base::{
    GroupNo, GroupPart, ListOf, Name, Parts, SiteNo, Sky, Snapshot, SnapshotFault, TargetNo,
    repeated,
};
use std::alloc::{AllocError, Global};
use std::collections::BTreeSet;

/// What a snapshot has of listed groups.
#[derive(Drop)]
struct ListedParts {
    groups: ListOf<GroupPart>,
    quotas: ListOf<u64>,
}

impl Desk {
    /// The snapshot of the desk, which has this version. Fails only for want of memory.
    pub(crate) fn snapshot(&self, alloc: Global, version: u64) -> Result<Snapshot, AllocError>
        requires desk { IsDesk (seen self.now) }
        requires version { version ≤ most_version }
        ensures { IfOk result (λ snapshot. snapshot ≡ snapshot_of version (seen self.now)) }
    {
        let parts = self.parts(alloc, version)?;
        faultless(alloc, parts)
    }

    /// The parts of the snapshot, which have no fault.
    fn parts(&self, alloc: Global, version: u64) -> Result<Parts, AllocError>
        requires desk { IsDesk (seen self.now) }
        requires version { version ≤ most_version }
        ensures parts { IfOk result (λ parts. parts ≡ snapshot_of version (seen self.now)) }
        ensures snapshot { IfOk result IsSnapshot }
    {
        self.recall_few();
        let horizon = self.horizon(alloc)?;
        let telescopes = self.telescope_parts(alloc, &horizon)?;
        let ListedParts { groups, quotas } = self.listed_parts(alloc)?;
        let skies = self.listed_skies(alloc, &horizon, groups.as_slice())?;
        Ok(Parts {
            version,
            len: self.opening.slice,
            first: self.first_slice(),
            slices: self.opening.horizon,
            telescopes,
            skies,
            groups,
            quotas,
        })
    }

    /// The parts that come of listed groups.
    fn listed_parts(&self, alloc: Global) -> Result<ListedParts, AllocError>
        requires { IsDesk (seen self.now) }
        ensures groups { IfOk result (λ parts. parts.groups ≡ map (group_part (seen self.now)) (listed_groups (seen self.now))) }
        ensures quotas { IfOk result (λ parts. parts.quotas ≡ quotas_of (seen self.now) self.now.opening.quota) }
    {
        let listed = self.listed(alloc)?;
        let proposals = self.proposals(alloc, listed.as_slice())?;
        Ok(ListedParts {
            groups: self.group_parts(alloc, &proposals, listed.as_slice())?,
            quotas: self.quotas(alloc, proposals.len())?,
        })
    }

    /// The skies of the targets of listed groups.
    fn listed_skies(
        &self,
        alloc: Global,
        horizon: &Spans,
        groups: &[GroupPart],
    ) -> Result<ListOf<Sky>, AllocError>
        requires desk { IsDesk (seen self.now) }
        requires horizon { IsHorizonSet (seen self.now) horizon.now }
        requires groups { groups.now ≡ map (group_part (seen self.now)) (listed_groups (seen self.now)) }
        ensures { IfOk result (λ skies. skies ≡ skies_of (seen self.now)) }
    {
        let targets = targets_in(alloc, groups)?;
        self.skies(alloc, horizon, targets.as_slice())
    }

    /// Recalls what the network keeps of its numbers. It does nothing.
    pub(crate) fn recall_few(&self)
        ensures { HasFew self.now.network }
    {
        let _ = self.network.telescopes();
        let targets = self.network.targets();
        let sites = self.network.sites();
        if targets > 0 && sites > 0 {
            let _ = self.network.visible(TargetNo(0), SiteNo(0));
        }
    }

    /// The proposals of listed groups, each once, in their order.
    fn proposals(&self, alloc: Global, listed: &[GroupNo]) -> Result<IndexSet<Name>, AllocError>
        requires desk { IsDesk (seen self.now) }
        requires listed { listed.now ≡ map (λ p. p.1.number) (listed_groups (seen self.now)) }
        ensures { IfOk result (λ proposals. proposals.keys ≡ proposals_of (seen self.now)) }
    {
        let mut proposals = IndexSet::new(alloc);
        for number in listed {
            add_name(&mut proposals, &self.submission(*number).document.proposal)?;
        }
        Ok(proposals)
    }

    /// The place of a proposal's quota, where the desk has one.
    fn quota_place(&self, proposals: &IndexSet<Name>, proposal: &Name) -> Option<u16>
        requires few { length proposals.now.keys ≤ most_pending }
        requires proposals { proposals.now.keys ≡ proposals_of (seen self.now) }
        ensures { result ≡ quota_place (seen self.now) proposal.now self.now.opening.quota }
    {
        match self.opening.quota {
            None => None,
            Some(_) => place_of(proposals, proposal),
        }
    }

    /// The part of a listed group.
    fn group_part(
        &self,
        alloc: Global,
        proposals: &IndexSet<Name>,
        number: GroupNo,
    ) -> Result<GroupPart, AllocError>
        requires desk { IsDesk (seen self.now) }
        requires proposals { proposals.now.keys ≡ proposals_of (seen self.now) }
        requires number { IsGroupNo (seen self.now) number }
        ensures { IfOk result (λ part. (p : Submitted × Group) → both_at (seen self.now) number ≡ Some p → part ≡ group_part (seen self.now) p) }
    {
        let group = self.runs.known(number);
        let submitted = self.submission(number);
        Ok(GroupPart {
            group: group.number,
            op: group.op,
            requests: self.request_parts(alloc, submitted, group)?,
            quota: self.quota_place(proposals, &submitted.document.proposal),
        })
    }

    /// The parts of listed groups.
    fn group_parts(
        &self,
        alloc: Global,
        proposals: &IndexSet<Name>,
        listed: &[GroupNo],
    ) -> Result<ListOf<GroupPart>, AllocError>
        requires desk { IsDesk (seen self.now) }
        requires proposals { proposals.now.keys ≡ proposals_of (seen self.now) }
        requires listed { listed.now ≡ map (λ p. p.1.number) (listed_groups (seen self.now)) }
        ensures { IfOk result (λ parts. parts ≡ map (group_part (seen self.now)) (listed_groups (seen self.now))) }
    {
        let mut parts = ListOf::new(alloc);
        for number in listed {
            parts.push(self.group_part(alloc, proposals, *number)?)?;
        }
        Ok(parts)
    }

    /// The quota once for each of so many proposals, where the desk has one.
    fn quotas(&self, alloc: Global, count: usize) -> Result<ListOf<u64>, AllocError>
        requires { count ≡ length (proposals_of (seen self.now)) }
        ensures { IfOk result (λ quotas. quotas ≡ quotas_of (seen self.now) self.now.opening.quota) }
    {
        match self.opening.quota {
            None => Ok(ListOf::new(alloc)),
            Some(quota) => Ok(ListOf::from_vec(repeated(alloc, quota, count)?)),
        }
    }
}

/// Adds a name, of which a copy is made only where it is new.
fn add_name(names: &mut IndexSet<Name>, name: &Name) -> Result<(), AllocError>
    ensures { OnOk result (names.new.keys ≡ numbered names.old.keys name.now) }
{
    if names.get_index_of(name).is_none() {
        names.insert(name.clone()?)?;
    }
    Ok(())
}

/// The place of a name.
fn place_of(names: &IndexSet<Name>, name: &Name) -> Option<u16>
    requires { length names.now.keys ≤ most_pending }
    ensures { result ≡ number_of names.now.keys name.now }
{
    let place = names.get_index_of(name)?;
    Some(place as u16)
}

/// The snapshot of parts without a fault.
fn faultless(alloc: Global, parts: Parts) -> Result<Snapshot, AllocError>
    requires { IsSnapshot parts }
    ensures { IfOk result (λ snapshot. snapshot ≡ parts) }
{
    match Snapshot::build(alloc, parts) {
        Ok(snapshot) => Ok(snapshot),
        Err(SnapshotFault::NoMemory) => Err(AllocError),
        Err(_) => unreachable!(),
    }
}

/// Adds targets to a set of their numbers.
fn add_targets(numbers: &mut BTreeSet<u16>, targets: &[TargetNo]) -> Result<(), AllocError>
    ensures { OnOk result (numbers.new.keys ≡ with_numbers_of numbers.old.keys targets.now) }
{
    for target in targets {
        numbers.insert(target.0)?;
    }
    Ok(())
}

/// Adds the targets of the requests of a group.
fn add_targets_of(numbers: &mut BTreeSet<u16>, group: &GroupPart) -> Result<(), AllocError>
    ensures { OnOk result (numbers.new.keys ≡ with_numbers_of numbers.old.keys (group_targets group.now)) }
{
    for request in group.requests.as_slice() {
        add_targets(numbers, request.targets.as_slice())?;
    }
    Ok(())
}

/// The numbers of the targets of all groups.
fn numbers_in(alloc: Global, groups: &[GroupPart]) -> Result<BTreeSet<u16>, AllocError>
    ensures { IfOk result (λ numbers. numbers.keys ≡ with_numbers_of [] (part_targets groups.now)) }
{
    let mut numbers = BTreeSet::new(alloc);
    for group in groups {
        add_targets_of(&mut numbers, group)?;
    }
    Ok(numbers)
}

/// The targets of all groups, each once, rising.
fn targets_in(alloc: Global, groups: &[GroupPart]) -> Result<Vec<TargetNo>, AllocError>
    ensures { IfOk result (λ targets. targets.items ≡ map (λ n. record { 0 = n }) (with_numbers_of [] (part_targets groups.now))) }
{
    as_targets(alloc, &numbers_in(alloc, groups)?)
}
