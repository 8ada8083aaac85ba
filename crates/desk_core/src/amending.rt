// `amend`: a group ends, and another takes its place.

ghost use Rattle.std.specs.Prelude.{◌≡◌, ◌≢◌, ◌+◌, ◌-◌, ◌≤◌, ◌<◌, ◌^◌, ◌||◌, length, map, find};
ghost use Rattle.std.specs.Prelude.{slice_get, Ok, None, Some, IfOk, IfErr, OnOk, OnErr, option_and_then, vec_len, vec_capacity};
ghost use Rattle.std.specs.Option.{option_map};
ghost use Rattle.plan_base.specs.Limits.{most_version};
ghost use Rattle.plan_base.specs.States.{is_completed};
ghost use Rattle.request_model.specs.Ranges.{IsGroup};
ghost use Rattle.allocations.specs.Books.{total_seconds};
ghost use Rattle.allocations.specs.Changes.{freed, booked};
ghost use Rattle.allocations.specs.Ledger.{IsHoldList, IsFree, seconds_of_holds};
ghost use Rattle.allocations.specs.Refusals.{refusal_of};
ghost use Rattle.desk_runs.specs.Numbers.{group_at, is_placed};
ghost use Rattle.desk_runs.specs.Reports.{withdrawn};
ghost use Rattle.desk_runs.specs.Sound.{IsWithdrawable};
ghost use Rattle.desk_events.specs.declared.fault.CommandFault.TheVariants.{NoMemory};
ghost use Rattle.desk_core.specs.declared.desk.Submitted.{Submitted};
ghost use Rattle.desk_core.specs.Desk.{seen, Decides};
ghost use Rattle.desk_core.specs.Kept.{IsDesk, IsRoomy};
ghost use Rattle.desk_core.specs.Refusals.{refusal_in, refusal_of_ledger};
ghost use Rattle.desk_core.specs.Asking.{seen_made};
ghost use Rattle.desk_core.specs.Making.{AreMade};
ghost use Rattle.desk_core.specs.Closing.{begun_member, ending_refusal, on_freed, on_amend, IsAmendable, refund_for};

use crate::asking::Made;
use crate::desk::Desk;
use crate::submitting::{Booked, NewGroup, has_room};
use desk_events::{CommandFault, GroupRefund, Refusal, Reply};
use desk_runs::{Request, Runs};
use plan_base::{GroupNo, ListOf, RequestNo};
use request_model::GroupDoc;
use std::alloc::{AllocError, Global};

/// The first of the requests that is running or completed.
fn first_begun(runs: &Runs, requests: &[Request]) -> Option<RequestNo>
    ensures { result ≡ option_map (λ q. q.number) (find (λ q. is_placed runs.now.running q.number || is_completed q.state) requests.now) }
{
    requests
        .iter()
        .find(|q| runs.is_running(q.number) || q.state.is_completed())
        .map(|q| q.number)
}

/// The refund of an ipp charge, where there was one.
fn refund_for(
    alloc: Global,
    number: GroupNo,
    charged: u64,
) -> Result<ListOf<GroupRefund>, AllocError>
    ensures { IfOk result (λ refunded. refunded ≡ refund_for number charged) }
{
    let mut refunded = ListOf::new(alloc);
    if charged > 0 {
        refunded.push(GroupRefund {
            group: number,
            seconds: charged,
        })?;
    }
    Ok(refunded)
}

impl Desk {
    /// Whether a group may be amended: it is there, it is open, and no member is running or completed.
    fn check_amendment(&self, number: GroupNo) -> Result<(), Refusal>
        ensures none { OnOk result (ending_refusal (begun_member (seen self.now)) (group_at self.now.runs.groups number) ≡ None) }
        ensures may { OnOk result (IsAmendable number self.now.runs) }
        ensures refused { IfErr result (λ refusal. ending_refusal (begun_member (seen self.now)) (group_at self.now.runs.groups number) ≡ Some refusal) }
    {
        let group = self.open_group(number)?;
        match first_begun(&self.runs, group.requests.as_slice()) {
            Some(request) => Err(Refusal::GroupStarted { request }),
            None => Ok(()),
        }
    }

    /// What is given back of the ipp charge of a group.
    fn refunded(&self, alloc: Global, number: GroupNo) -> Result<ListOf<GroupRefund>, AllocError>
        requires { (1 ≤ number.0) × (number.0 ≤ length self.now.submitted.items) }
        ensures { (w : Submitted) → slice_get self.now.submitted.items (number.0 - 1) ≡ Some w
            → IfOk result (λ refunded. refunded ≡ refund_for number w.charged) }
    {
        refund_for(alloc, number, self.submission(number).charged)
    }

    /// Withdraws a group, and books a new one in its place, which was entered. The refusals are those of the ledger, once what
    /// the old group held is freed. An error changes nothing.
    fn replace(&mut self, old: GroupNo, new: &NewGroup) -> Result<(), CommandFault>
        requires may { IsWithdrawable old self.old.runs }
        requires holds { IsHoldList new.now.holds }
        requires free { IsFree new.now.number self.old.ledger.books.holds }
        requires bound { total_seconds (freed old self.old.ledger.books) + seconds_of_holds new.now.holds + new.now.submitted.charged ≤ 10 ^ 18 }
        ensures booked { OnOk result (seen self.new ≡ record (seen self.old) {
          books = booked new.now.number new.now.holds new.now.submitted.charged (freed old self.old.ledger.books);
          progress = withdrawn old self.old.runs;
        }) }
        ensures given { OnOk result (refusal_of (freed old self.old.ledger.books) new.now.holds new.now.submitted.charged ≡ None) }
        ensures refused { IfErr result (λ fault. fault ≢ NoMemory
            → option_and_then refusal_of_ledger (refusal_of (freed old self.old.ledger.books) new.now.holds new.now.submitted.charged) ≡ refusal_in fault) }
        ensures unchanged { OnErr result (seen self.new ≡ seen self.old) }
        ensures room { vec_len self.new.submitted ≡ vec_len self.old.submitted }
        ensures more { vec_capacity self.new.submitted ≡ vec_capacity self.old.submitted }
    {
        let change = self.runs.withdraw(old)?;
        self.ledger.replace(old, new.number, new.holds.as_slice(), new.submitted.charged)?;
        self.runs.make(change);
        Ok(())
    }

    /// Submits a document with the requests that it makes, in the place of a group.
    fn amend_made(
        &mut self,
        alloc: Global,
        old: GroupNo,
        document: &GroupDoc,
        made: Vec<Made>,
    ) -> Result<Reply, CommandFault>
        requires desk { IsDesk (seen self.old) }
        requires room { IsRoomy (seen self.old).books }
        requires few { length self.old.runs.groups < most_version }
        requires may { IsAmendable old self.old.runs }
        requires document { IsGroup document.now }
        requires made { AreMade self.old.runs.moment document.now (map seen_made made.items) }
        ensures { Decides (on_freed (seen self.old) old document.now (Ok (map seen_made made.entry.items))) (seen self.old) (seen self.new) result }
    {
        let others = self.runs.pending() - self.runs.known(old).pending();
        has_room(others, made.len())?;
        let refunded = self.refunded(alloc, old)?;
        let known = self.network.targets();
        let new = self.enter(alloc, document, made)?;
        if let Err(fault) = self.replace(old, &new) {
            self.forget(known);
            return Err(fault);
        }
        let Booked {
            group,
            ipp_charged,
            requests,
        } = self.keep(new);
        Ok(Reply::Amended {
            group,
            ipp_charged,
            refunded,
            replaces: old,
            requests,
        })
    }

    /// `amend`: a group that is there, is open, and of which no member is running or completed, is withdrawn, and a
    /// document's group is submitted in its place. The refusals of the document are those of `submit`, with the old group's
    /// requests not counted, and its holds and ipp charge given back. An error changes nothing.
    pub(crate) fn amend(
        &mut self,
        alloc: Global,
        old: GroupNo,
        document: &GroupDoc,
    ) -> Result<Reply, CommandFault>
        requires desk { IsDesk (seen self.old) }
        requires room { IsRoomy (seen self.old).books }
        requires few { length self.old.runs.groups < most_version }
        requires document { IsGroup document.now }
        ensures { Decides (on_amend (seen self.old) old document.now) (seen self.old) (seen self.new) result }
    {
        self.check_amendment(old)?;
        let made = self.made_of(alloc, document)?;
        self.amend_made(alloc, old, document, made)
    }
}
