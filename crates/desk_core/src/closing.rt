// `withdraw`: a group ends.

ghost use Rattle.std.specs.declared.option.Option.{Option};
ghost use Rattle.std.specs.Prelude.{◌≡◌, true, find, None, Some, IfOk, IfErr, OnOk};
ghost use Rattle.std.specs.Option.{option_map};
ghost use Rattle.desk_runs.specs.Numbers.{group_at, is_placed};
ghost use Rattle.desk_runs.specs.States.{is_open};
ghost use Rattle.desk_runs.specs.Sound.{IsWithdrawable};
ghost use Rattle.desk_runs.specs.declared.group.Group.{Group};
ghost use Rattle.desk_events.specs.declared.refusal.Refusal.{Refusal};
ghost use Rattle.desk_core.specs.Desk.{seen, Decides};
ghost use Rattle.desk_core.specs.Kept.{IsDesk, IsRoomy};
ghost use Rattle.desk_core.specs.Closing.{running_member, ending_refusal, on_withdraw};

use crate::desk::Desk;
use desk_events::{CommandFault, Refusal, Reply};
use desk_runs::{Group, Request, Runs};
use plan_base::{GroupNo, RequestNo};
use std::alloc::Global;

/// The first of the requests that is running.
fn first_running(runs: &Runs, requests: &[Request]) -> Option<RequestNo>
    ensures { result ≡ option_map (λ q. q.number) (find (λ q. is_placed runs.now.running q.number) requests.now) }
{
    requests
        .iter()
        .find(|q| runs.is_running(q.number))
        .map(|q| q.number)
}

impl Desk {
    /// The open group with a number. `NoSuchGroup` comes where there is none, `GroupClosed` where it is closed.
    pub(crate) fn open_group(&self, number: GroupNo) -> Result<&Group, Refusal>
        ensures there { IfOk result (λ group. group_at self.now.runs.groups number ≡ Some group.now) }
        ensures opened { IfOk result (λ group. is_open group.now ≡ true) }
        ensures refused { IfErr result (λ refusal. (started : Group → Option Refusal)
            → ending_refusal started (group_at self.now.runs.groups number) ≡ Some refusal) }
    {
        let Some(group) = self.runs.group(number) else {
            return Err(Refusal::NoSuchGroup);
        };
        if !group.is_open() {
            return Err(Refusal::GroupClosed {
                state: group.state(),
            });
        }
        Ok(group)
    }

    /// Whether a group may be withdrawn: it is there, it is open, and no member is running.
    fn check_withdrawal(&self, number: GroupNo) -> Result<(), Refusal>
        ensures none { OnOk result (ending_refusal (running_member (seen self.now)) (group_at self.now.runs.groups number) ≡ None) }
        ensures may { OnOk result (IsWithdrawable number self.now.runs) }
        ensures refused { IfErr result (λ refusal. ending_refusal (running_member (seen self.now)) (group_at self.now.runs.groups number) ≡ Some refusal) }
    {
        let group = self.open_group(number)?;
        match first_running(&self.runs, group.requests.as_slice()) {
            Some(request) => Err(Refusal::GroupStarted { request }),
            None => Ok(()),
        }
    }

    /// `withdraw`: a group isn't wanted any longer.
    pub(crate) fn withdraw(&mut self, alloc: Global, number: GroupNo) -> Result<Reply, CommandFault>
        requires desk { IsDesk (seen self.old) }
        requires room { IsRoomy self.old.ledger.books }
        ensures { Decides (on_withdraw (seen self.old) number) (seen self.old) (seen self.new) result }
    {
        self.check_withdrawal(number)?;
        let change = self.runs.withdraw(number)?;
        let refunded = self.go_on(alloc, change, 0)?;
        Ok(Reply::Withdrawn { refunded })
    }
}
