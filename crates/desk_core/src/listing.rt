// The groups that a plan may be made of, with what is asked for in them.

ghost use Rattle.std.specs.Prelude.{◌≡◌, ◌&&◌, Some, IfOk, map};
ghost use Rattle.std.specs.List.{list_any};
ghost use Rattle.plan_base.specs.Operators.{is_oneof};
ghost use Rattle.desk_runs.specs.Clock.{is_waiting};
ghost use Rattle.desk_runs.specs.declared.group.Group.{Group};
ghost use Rattle.desk_core.specs.declared.desk.Submitted.{Submitted};
ghost use Rattle.desk_core.specs.Desk.{seen};
ghost use Rattle.desk_core.specs.Kept.{IsDesk};
ghost use Rattle.desk_core.specs.DeskSnapshot.{both_at, IsGroupNo, has_running, is_listed, listed_groups, telescopes_for, request_part, waiting_of};

use crate::desk::{Desk, Submitted, Wanted};
use crate::fitting::fits;
use desk_runs::{Group, Request};
use plan_base::{GroupNo, ListOf, RequestPart, TelescopeNo};
use std::alloc::{AllocError, Global};

impl Desk {
    /// Whether a member of a group is running.
    fn has_running(&self, group: &Group) -> bool
        ensures { result ≡ has_running (seen self.now) group.now }
    {
        group
            .requests
            .as_slice()
            .iter()
            .any(|q| self.runs.is_running(q.number))
    }

    /// Whether a member of a group is pending and isn't running.
    fn has_waiting(&self, group: &Group) -> bool
        ensures { result ≡ list_any (is_waiting self.now.runs.running) group.now.requests }
    {
        let running = self.runs.running();
        group
            .requests
            .as_slice()
            .iter()
            .any(|q| q.is_waiting(running))
    }

    /// Whether a group is a `ONEOF` with a running member.
    fn is_blocked(&self, group: &Group) -> bool
        ensures { result ≡ (is_oneof group.now.op && has_running (seen self.now) group.now) }
    {
        group.op.is_oneof() && self.has_running(group)
    }

    /// Whether a group is listed.
    fn is_listed(&self, number: GroupNo) -> bool
        requires desk { IsDesk (seen self.now) }
        requires number { IsGroupNo (seen self.now) number }
        ensures { (p : Submitted × Group) → both_at (seen self.now) number ≡ Some p → result ≡ is_listed (seen self.now) p }
    {
        let group = self.runs.known(number);
        !self.is_blocked(group) && self.has_waiting(group)
    }

    /// The numbers of the listed groups, rising. Fails only for want of memory.
    pub(crate) fn listed(&self, alloc: Global) -> Result<Vec<GroupNo>, AllocError>
        requires { IsDesk (seen self.now) }
        ensures { IfOk result (λ numbers. numbers.items ≡ map (λ p. p.1.number) (listed_groups (seen self.now))) }
    {
        let mut listed = Vec::new(alloc);
        for number in self.runs.open() {
            if self.is_listed(*number) {
                listed.push(*number)?;
            }
        }
        Ok(listed)
    }

    /// The telescopes that fit a request, rising.
    fn telescopes_for(
        &self,
        alloc: Global,
        wanted: &Wanted,
    ) -> Result<ListOf<TelescopeNo>, AllocError>
        ensures { IfOk result (λ telescopes. telescopes ≡ telescopes_for (seen self.now) wanted.now) }
    {
        let mut telescopes = ListOf::new(alloc);
        for telescope in 0..self.network.telescopes() {
            if fits(
                &self.network,
                TelescopeNo(telescope),
                &wanted.location,
                &wanted.instrument,
            ) {
                telescopes.push(TelescopeNo(telescope))?;
            }
        }
        Ok(telescopes)
    }

    /// The part of a request.
    fn request_part(
        &self,
        alloc: Global,
        request: &Request,
        wanted: &Wanted,
    ) -> Result<RequestPart, AllocError>
        ensures { IfOk result (λ part. part ≡ request_part (seen self.now) (request.now, wanted.now)) }
    {
        Ok(RequestPart {
            request: request.number,
            seconds: request.seconds,
            value: wanted.value,
            windows: wanted.windows.clone()?,
            telescopes: self.telescopes_for(alloc, wanted)?,
            targets: wanted.targets.clone()?,
            fade: wanted.fade,
        })
    }

    /// The parts of the requests of a group that are pending and aren't running.
    pub(crate) fn request_parts(
        &self,
        alloc: Global,
        submitted: &Submitted,
        group: &Group,
    ) -> Result<ListOf<RequestPart>, AllocError>
        ensures { IfOk result (λ parts. parts ≡ map (request_part (seen self.now)) (waiting_of (seen self.now) (submitted.now, group.now))) }
    {
        let running = self.runs.running();
        let wanted = submitted.requests.as_slice();
        let mut parts = ListOf::new(alloc);
        for (request, wanted) in group.requests.as_slice().iter().zip(wanted.iter()) {
            if request.is_waiting(running) {
                parts.push(self.request_part(alloc, request, wanted)?)?;
            }
        }
        Ok(parts)
    }
}
