// `submit`: a group is numbered, held for and charged.

ghost use Rattle.std.specs.Prelude.{◌≡◌, ◌≢◌, ◌+◌, ◌≤◌, ◌<◌, ◌^◌, ◌++◌, ◌∷◌, [], nat_lt, ◌&&◌};
ghost use Rattle.std.specs.Prelude.{if◌then◌else◌, length, map, All, true, false, Ok, IfOk, IfErr, OnOk, OnErr, vec_len, vec_capacity};
ghost use Rattle.plan_base.specs.Limits.{most_version, most_seconds, most_pending, most_members};
ghost use Rattle.plan_base.specs.declared.parts.Op.TheVariants.{Many};
ghost use Rattle.site_model.specs.Limits.{most_targets};
ghost use Rattle.request_model.specs.Ranges.{IsGroup};
ghost use Rattle.desk_runs.specs.Numbers.{requests_of};
ghost use Rattle.desk_runs.specs.Turning.{group_of};
ghost use Rattle.desk_runs.specs.Sound.{IsSound};
ghost use Rattle.desk_events.specs.declared.fault.CommandFault.TheVariants.{Refused, NoMemory};
ghost use Rattle.desk_events.specs.declared.refusal.FullOf.TheVariants.{Requests, Targets};
ghost use Rattle.desk_events.specs.declared.refusal.Refusal.TheVariants.{Full};
ghost use Rattle.desk_core.specs.Desk.{DeskSeen, seen, Decides};
ghost use Rattle.desk_core.specs.Kept.{IsDesk, IsRoomy};
ghost use Rattle.plan_base.specs.Operators.{is_single};
ghost use Rattle.desk_core.specs.Asking.{last_of, seen_made};
ghost use Rattle.desk_core.specs.Submitting.{value_of, wanted_of, asks_of, targets_with, on_submit, on_made};
ghost use Rattle.desk_core.specs.Making.{AreMade, new_group, drafted, with_draft, with_numbers, with_entry, IsEntered};

use crate::asking::Made;
use crate::desk::{Desk, Submitted, Wanted};
use crate::holding::{held, ipp_charge};
use crate::targets::{number_targets, targets_of};
use allocations::Hold;
use desk_events::{CommandFault, FullOf, Refusal, Reply};
use desk_runs::{Ask, Group, Request};
use plan_base::{GroupNo, ListOf, MOST_PENDING, Op, RequestNo, Sec, Span};
use request_model::GroupDoc;
use site_model::Network;
use std::alloc::{AllocError, Global};

/// A group that is to be booked.
#[derive(Drop)]
pub(crate) struct NewGroup {
    /// Its number.
    pub number: GroupNo,
    /// What it holds.
    pub holds: ListOf<Hold>,
    /// The numbers of its requests.
    pub requests: ListOf<RequestNo>,
    /// What is kept of it.
    pub submitted: Submitted,
}

/// What is told of a group that was booked.
#[derive(Drop)]
pub(crate) struct Booked {
    /// Its number.
    pub group: GroupNo,
    /// The seconds that its ipp account was charged.
    pub ipp_charged: u64,
    /// The numbers of its requests.
    pub requests: ListOf<RequestNo>,
}

/// The later of a moment and the end of a window.
fn later(last: Sec, window: Span) -> Sec
    ensures { result.0 ≡ last_of (record { from = record { 0 = 0 }; to = last } ∷ window ∷ []) }
{
    Sec(last.0.max(window.to.0))
}

/// The greatest end of windows.
fn last_of(windows: &[Span]) -> Sec
    ensures { result.0 ≡ last_of windows.now }
{
    let mut last = Sec(0);
    for window in windows {
        last = later(last, *window);
    }
    last
}

/// The value of a request: priority times ipp times minutes, rounded up.
fn value_of(document: &GroupDoc, seconds: u32) -> u32
    requires document { IsGroup document.now }
    requires seconds { seconds ≤ most_seconds }
    ensures { result ≡ value_of document.now seconds }
{
    u32::from(document.priority) * u32::from(document.ipp) * seconds.div_ceil(60)
}

/// What is wanted of a request that is made.
fn wanted_of(
    alloc: Global,
    network: &Network,
    document: &GroupDoc,
    made: Made,
) -> Result<Wanted, AllocError>
    requires document { IsGroup document.now }
    requires seconds { made.seconds ≤ most_seconds }
    ensures { IfOk result (λ wanted. wanted ≡ wanted_of network.now.registry.targets document.now (seen_made made.entry)) }
{
    let Made {
        asked,
        seconds,
        windows,
    } = made;
    let targets = targets_of(alloc, network, asked.configurations.as_slice())?;
    Ok(Wanted {
        location: asked.location.copy()?,
        instrument: asked.instrument.clone()?,
        threshold: asked.threshold,
        fade: asked.fade,
        value: value_of(document, seconds),
        windows,
        targets,
    })
}

/// What is wanted of the requests that are made.
fn wanted_for(
    alloc: Global,
    network: &Network,
    document: &GroupDoc,
    made: Vec<Made>,
) -> Result<ListOf<Wanted>, AllocError>
    requires document { IsGroup document.now }
    requires seconds { All (λ m. m.seconds ≤ most_seconds) made.items }
    ensures { IfOk result (λ wanted. wanted ≡ map (wanted_of network.now.registry.targets document.now) (map seen_made made.entry.items)) }
{
    let mut wanted = Vec::with_capacity(alloc, made.len())?;
    for one in made {
        let one = wanted_of(alloc, network, document, one)?;
        wanted.push(one)?;
    }
    Ok(ListOf::from_vec(wanted))
}

/// What is asked for with a request that is made.
fn ask_of(made: &Made) -> Ask
    ensures { result ≡ record { seconds = made.now.seconds; last = record { 0 = last_of made.now.windows } } }
{
    Ask {
        seconds: made.seconds,
        last: last_of(made.windows.as_slice()),
    }
}

/// What is asked for.
fn asks_of(alloc: Global, made: &[Made]) -> Result<Vec<Ask>, AllocError>
    ensures { IfOk result (λ asks. asks.items ≡ asks_of (map seen_made made.now)) }
{
    let mut asks = Vec::with_capacity(alloc, made.len())?;
    for one in made {
        asks.push(ask_of(one))?;
    }
    Ok(asks)
}

/// The operator of a group of so many requests: a cadence that makes more than one makes a `MANY`.
fn op_of(op: Op, count: usize) -> Op
    ensures { result ≡ (if is_single op && nat_lt 1 count then Many else op) }
{
    match op {
        Op::Single => { if count > 1 { Op::Many } else { op } }
        Op::Many | Op::OneOf | Op::And => op,
    }
}

impl NewGroup {
    /// A group of a document, of which these requests are wanted.
    fn of(
        alloc: Global,
        document: GroupDoc,
        wanted: ListOf<Wanted>,
        group: &Group,
    ) -> Result<NewGroup, AllocError>
        requires count { length wanted ≡ length group.now.requests }
        requires few { length group.now.requests ≤ most_members }
        requires short { All (λ q. q.seconds ≤ most_seconds) group.now.requests }
        ensures { IfOk result (λ new. new ≡ new_group document wanted group.now) }
    {
        let holds = held(alloc, &document, group, wanted.as_slice())?;
        let charged = ipp_charge(document.ipp, holds.as_slice());
        let requests = numbers_of(alloc, group.requests.as_slice())?;
        Ok(NewGroup {
            number: group.number,
            holds: ListOf::from_vec(holds),
            requests: ListOf::from_vec(requests),
            submitted: Submitted {
                document,
                charged,
                requests: wanted,
            },
        })
    }
}

/// The numbers of requests.
fn numbers_of(alloc: Global, requests: &[Request]) -> Result<Vec<RequestNo>, AllocError>
    ensures { IfOk result (λ numbers. numbers.items ≡ map (λ q. q.number) requests.now) }
{
    requests.iter().map(|q| q.number).collect(alloc)
}

impl Desk {
    /// The group with a number that was just added, of which these requests are wanted.
    fn new_group(
        &self,
        alloc: Global,
        document: GroupDoc,
        wanted: ListOf<Wanted>,
        number: GroupNo,
    ) -> Result<NewGroup, AllocError>
        requires there { (1 ≤ number.0) × (number.0 ≤ length self.now.runs.groups) }
        requires count { length wanted ≡ length (group_of self.now.runs.groups number).requests }
        requires few { length (group_of self.now.runs.groups number).requests ≤ most_members }
        requires short { All (λ q. q.seconds ≤ most_seconds) (group_of self.now.runs.groups number).requests }
        ensures { IfOk result (λ new. new ≡ new_group document wanted (group_of self.now.runs.groups number)) }
    {
        NewGroup::of(alloc, document, wanted, self.runs.known(number))
    }

    /// Adds the group of a document, whose targets have numbers, with the requests that it makes. Fails only for want of
    /// memory, and then changes nothing.
    fn draft(
        &mut self,
        alloc: Global,
        document: &GroupDoc,
        made: Vec<Made>,
    ) -> Result<NewGroup, AllocError>
        requires document { IsGroup document.now }
        requires made { AreMade self.old.runs.moment document.now (map seen_made made.items) }
        requires sound { IsSound self.old.runs }
        requires few { length (requests_of self.old.runs.groups) + length made.items < 2 ^ 32 }
        requires few_groups { length self.old.runs.groups + 1 < 2 ^ 32 }
        ensures new { IfOk result (λ new. new ≡ drafted (seen self.old) document.now (map seen_made made.entry.items)) }
        ensures added { OnOk result (seen self.new ≡ with_draft (seen self.old) document.now (map seen_made made.entry.items)) }
        ensures room { OnOk result (vec_len self.new.submitted < vec_capacity self.new.submitted) }
        ensures unchanged { OnErr result (seen self.new ≡ seen self.old) }
    {
        self.submitted.reserve(1)?;
        let op = op_of(document.op, made.len());
        let asks = asks_of(alloc, made.as_slice())?;
        let wanted = wanted_for(alloc, &self.network, document, made)?;
        let document = document.copy()?;
        let number = self.runs.add(op, asks.as_slice())?;
        match self.new_group(alloc, document, wanted, number) {
            Ok(new) => Ok(new),
            Err(no_memory) => {
                self.runs.forget_last();
                Err(no_memory)
            }
        }
    }

    /// Numbers the targets of a document and adds its group. `Full` comes where there would be more than 2,048 targets. An
    /// error changes nothing.
    pub(crate) fn enter(
        &mut self,
        alloc: Global,
        document: &GroupDoc,
        made: Vec<Made>,
    ) -> Result<NewGroup, CommandFault>
        requires document { IsGroup document.now }
        requires made { AreMade self.old.runs.moment document.now (map seen_made made.items) }
        requires sound { IsSound self.old.runs }
        requires few { length (requests_of self.old.runs.groups) + length made.items < 2 ^ 32 }
        requires few_groups { length self.old.runs.groups + 1 < 2 ^ 32 }
        ensures new { IfOk result (λ new. new ≡ drafted (with_numbers (seen self.old) document.now) document.now (map seen_made made.entry.items)) }
        ensures entered { OnOk result (seen self.new ≡ with_entry (seen self.old) document.now (map seen_made made.entry.items)) }
        ensures few { OnOk result (length (targets_with (seen self.old) document.now) ≤ most_targets) }
        ensures room { OnOk result (vec_len self.new.submitted < vec_capacity self.new.submitted) }
        ensures refused { IfErr result (λ fault. fault ≢ NoMemory → (fault ≡ Refused (Full most_targets Targets))
            × (most_targets < length (targets_with (seen self.old) document.now))) }
        ensures unchanged { OnErr result (seen self.new ≡ seen self.old) }
    {
        let known = self.network.targets();
        number_targets(&mut self.network, document.requests.as_slice())?;
        match self.draft(alloc, document, made) {
            Ok(new) => Ok(new),
            Err(no_memory) => {
                self.network.forget_targets(known);
                Err(CommandFault::from(no_memory))
            }
        }
    }

    /// Takes the group that was entered last away again, with the targets that got numbers by it: those from `known` on.
    pub(crate) fn forget(&mut self, known: u16)
        requires { (before : DeskSeen) × IsEntered known before (seen self.old) }
        ensures { (before : DeskSeen) → IsEntered known before (seen self.old) → seen self.new ≡ before }
    {
        self.runs.forget_last();
        self.network.forget_targets(known);
    }

    /// Keeps a group that is booked as it was submitted, for which there is room, and says what is told of it.
    pub(crate) fn keep(&mut self, new: NewGroup) -> Booked
        requires { vec_len self.old.submitted < vec_capacity self.old.submitted }
        ensures kept { seen self.new ≡ record (seen self.old) { groups = (seen self.old).groups ++ new.submitted ∷ [] } }
        ensures told { result ≡ record { group = new.number; ipp_charged = new.submitted.charged; requests = new.requests } }
    {
        let NewGroup {
            number,
            holds: _,
            requests,
            submitted,
        } = new;
        let ipp_charged = submitted.charged;
        self.submitted.push_reserved(submitted);
        Booked {
            group: number,
            ipp_charged,
            requests,
        }
    }

    /// Submits a document with the requests that it makes.
    fn submit_made(
        &mut self,
        alloc: Global,
        document: &GroupDoc,
        made: Vec<Made>,
    ) -> Result<Reply, CommandFault>
        requires desk { IsDesk (seen self.old) }
        requires room { IsRoomy (seen self.old).books }
        requires few { length self.old.runs.groups < most_version }
        requires document { IsGroup document.now }
        requires made { AreMade self.old.runs.moment document.now (map seen_made made.items) }
        ensures { Decides (on_made (seen self.old) document.now (Ok (map seen_made made.entry.items))) (seen self.old) (seen self.new) result }
    {
        has_room(self.runs.pending(), made.len())?;
        let known = self.network.targets();
        let new = self.enter(alloc, document, made)?;
        let charged = new.submitted.charged;
        if let Err(fault) = self.ledger.hold(new.number, new.holds.as_slice(), charged) {
            self.forget(known);
            return Err(CommandFault::from(fault));
        }
        let Booked {
            group,
            ipp_charged,
            requests,
        } = self.keep(new);
        Ok(Reply::Submitted {
            group,
            ipp_charged,
            requests,
        })
    }

    /// `submit`: a document's group is numbered, held for and charged. The refusals are those of its requests, one after
    /// another; then `Full` of requests, of which 1,024 may be pending, and of targets, of which there may be 2,048; and
    /// those of the ledger. An error changes nothing.
    pub(crate) fn submit(
        &mut self,
        alloc: Global,
        document: &GroupDoc,
    ) -> Result<Reply, CommandFault>
        requires desk { IsDesk (seen self.old) }
        requires room { IsRoomy (seen self.old).books }
        requires few { length self.old.runs.groups < most_version }
        requires document { IsGroup document.now }
        ensures { Decides (on_submit (seen self.old) document.now) (seen self.old) (seen self.new) result }
    {
        let made = self.made_of(alloc, document)?;
        self.submit_made(alloc, document, made)
    }
}

/// `Full` where so many more requests would be too many.
pub(crate) fn has_room(pending: usize, count: usize) -> Result<(), CommandFault>
    requires { pending + count < 2 ^ 64 }
    ensures room { OnOk result (nat_lt most_pending (pending + count) ≡ false) }
    ensures full { IfErr result (λ fault. (fault ≡ Refused (Full most_pending Requests)) × (nat_lt most_pending (pending + count) ≡ true)) }
{
    if pending + count > MOST_PENDING {
        return Err(CommandFault::Refused(Refusal::Full {
            limit: MOST_PENDING as u64,
            what: FullOf::Requests,
        }));
    }
    Ok(())
}
