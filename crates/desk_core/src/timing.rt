// `clock` and `report`: time goes on, and observations end.

ghost use Rattle.std.specs.Prelude.{◌≡◌, true, None, Some, IfOk, MatchOption, position};
ghost use Rattle.desk_runs.specs.Numbers.{is_request, is_placed, group_with};
ghost use Rattle.desk_runs.specs.declared.group.Group.{Group};
ghost use Rattle.plan_base.specs.declared.number.RequestNo.{RequestNo};
ghost use Rattle.desk_core.specs.declared.desk.Submitted.{Submitted};
ghost use Rattle.desk_core.specs.declared.desk.Wanted.{Wanted};
ghost use Rattle.desk_core.specs.Holds.{key_of};
ghost use Rattle.desk_core.specs.Desk.{seen, Decides};
ghost use Rattle.desk_core.specs.Kept.{IsDesk, IsRoomy};
ghost use Rattle.desk_core.specs.Timing.{request_with, IsFoundAt, CanCharge, on_clock, on_failed, on_completed, on_report};

use crate::desk::Desk;
use crate::holding::key_of;
use allocations::Key;
use desk_events::{CommandFault, Refusal, Reply};
use desk_runs::{Moved, Reported, Request};
use plan_base::{GroupNo, RequestNo, Sec};
use std::alloc::{AllocError, Global};

/// Where a request stands.
#[derive(Clone, Copy)]
struct Place {
    group: GroupNo,
    /// At which place of the group it is.
    member: usize,
}

/// At which place the request with a number is.
fn member_at(requests: &[Request], number: RequestNo) -> Option<usize>
    ensures { result ≡ position (is_request number) requests.now }
{
    requests.iter().position(|q| q.number.0 == number.0)
}

impl Desk {
    /// `clock`: time has come so far.
    pub(crate) fn clock(&mut self, alloc: Global, at: Sec) -> Result<Reply, CommandFault>
        requires desk { IsDesk (seen self.old) }
        requires room { IsRoomy self.old.ledger.books }
        ensures { Decides (on_clock (seen self.old) at) (seen self.old) (seen self.new) result }
    {
        let now = self.runs.now();
        if at.0 < now.0 {
            return Err(CommandFault::Refused(Refusal::ClockBack { asked: at, now }));
        }
        let Moved {
            started,
            failed,
            expired,
            change,
        } = self.runs.clock(at)?;
        let refunded = self.go_on(alloc, change, 0)?;
        Ok(Reply::Clocked {
            expired,
            failed,
            refunded,
            started,
        })
    }

    /// Where the request with a number stands, if there is one.
    fn find_request(&self, number: RequestNo) -> Option<Place>
        requires { IsDesk (seen self.now) }
        ensures { MatchOption result (request_with (seen self.now) number ≡ None) (IsFoundAt (seen self.now) number) }
    {
        let group = self.runs.group_with(number)?;
        let member = member_at(group.requests.as_slice(), number)?;
        Some(Place {
            group: group.number,
            member,
        })
    }

    /// A report on a running request of which too little was taken.
    fn fail(&mut self, alloc: Global, number: RequestNo) -> Result<Reply, CommandFault>
        requires desk { IsDesk (seen self.old) }
        requires room { IsRoomy self.old.ledger.books }
        requires running { is_placed self.old.runs.running number ≡ true }
        ensures { Decides (on_failed (seen self.old) number) (seen self.old) (seen self.new) result }
    {
        let Reported {
            expired,
            change,
            ..
        } = self.runs.report(number, false)?;
        let refunded = self.go_on(alloc, change, 0)?;
        Ok(Reply::Failed { expired, refunded })
    }

    /// A report on a running request of which enough was taken.
    fn complete(
        &mut self,
        alloc: Global,
        number: RequestNo,
        group: GroupNo,
        key: &Key,
        used: u64,
    ) -> Result<Reply, CommandFault>
        requires desk { IsDesk (seen self.old) }
        requires room { IsRoomy self.old.ledger.books }
        requires running { is_placed self.old.runs.running number ≡ true }
        requires charge { CanCharge (seen self.old) number used key.now }
        ensures { (w : Submitted) (v : Wanted) (g : Group) → key.now ≡ key_of w.document v
            → group_with self.old.runs.groups number ≡ Some g → g.number ≡ group
            → Decides (on_completed (seen self.old) number used w v) (seen self.old) (seen self.new) result }
    {
        let Reported {
            canceled,
            change,
            ..
        } = self.runs.report(number, true)?;
        // Recalls that holds are covered by the balance.
        let _ = self.ledger.available(key);
        self.go_on(alloc, change, 1)?;
        self.ledger.charge(key, used, group, number);
        Ok(Reply::Completed {
            canceled,
            charged: used,
        })
    }

    /// How long the request at a place takes.
    fn seconds_at(&self, place: Place) -> u64
        requires { (number : RequestNo) × IsFoundAt (seen self.now) number place }
        ensures { (number : RequestNo) (h : IsFoundAt (seen self.now) number place) → result ≡ h.request.seconds }
    {
        let group = self.runs.known(place.group);
        u64::from(group.requests.as_slice()[place.member].seconds)
    }

    /// How much of the request at a place has to be taken, in percent.
    fn threshold_at(&self, place: Place) -> u8
        requires { (number : RequestNo) × IsFoundAt (seen self.now) number place }
        ensures { (number : RequestNo) (h : IsFoundAt (seen self.now) number place) → result ≡ h.wanted.threshold }
    {
        let submitted = self.submission(place.group);
        submitted.requests.as_slice()[place.member].threshold
    }

    /// The account of the request at a place.
    fn key_at(&self, place: Place) -> Result<Key, AllocError>
        requires { (number : RequestNo) × IsFoundAt (seen self.now) number place }
        ensures { (number : RequestNo) (h : IsFoundAt (seen self.now) number place) → IfOk result (λ key. key ≡ key_of h.submitted.document h.wanted) }
    {
        let submitted = self.submission(place.group);
        key_of(
            &submitted.document,
            &submitted.requests.as_slice()[place.member],
        )
    }

    /// `report`: an observation has ended, of which so many percent were taken.
    pub(crate) fn report(
        &mut self,
        alloc: Global,
        number: RequestNo,
        percent: u8,
        used: u64,
    ) -> Result<Reply, CommandFault>
        requires desk { IsDesk (seen self.old) }
        requires room { IsRoomy self.old.ledger.books }
        ensures { Decides (on_report (seen self.old) number percent used) (seen self.old) (seen self.new) result }
    {
        let Some(place) = self.find_request(number) else {
            return Err(CommandFault::Refused(Refusal::NoSuchRequest));
        };
        if !self.runs.is_running(number) {
            return Err(CommandFault::Refused(Refusal::NotRunning));
        }
        let most = self.seconds_at(place);
        if used > most {
            return Err(CommandFault::Refused(Refusal::UsedTooLong { most, used }));
        }
        if percent < self.threshold_at(place) {
            return self.fail(alloc, number);
        }
        let key = self.key_at(place)?;
        self.complete(alloc, number, place.group, &key, used)
    }
}
