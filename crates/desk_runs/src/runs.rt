// The groups of a desk, with what is published of them.

ghost use Rattle.std.specs.Prelude.{◌≡◌, ◌<◌, ◌≤◌, ◌+◌, ◌^◌, [], true, All, OnOk, OnErr, None, Some, IfOk, MatchOption, length, map, filter, slice_index_or};
ghost use Rattle.std.specs.Option.{option_copied};
ghost use Rattle.plan_base.specs.declared.state.RequestState.TheVariants.{WindowExpired, Canceled};
ghost use Rattle.plan_base.specs.States.{is_window_expired, is_in};
ghost use Rattle.desk_runs.specs.States.{is_open};
ghost use Rattle.desk_runs.specs.Numbers.{requests_of, group_with, group_at, is_placed};
ghost use Rattle.desk_runs.specs.Owners.{pending_count};
ghost use Rattle.desk_runs.specs.Progress.{Progress};
ghost use Rattle.desk_runs.specs.Clock.{at_moment, settle, started, beginning, ending, requests_in, became_in};
ghost use Rattle.desk_runs.specs.Turning.{no_group, group_of};
ghost use Rattle.desk_runs.specs.Adding.{with_group, with_kept, CanPublish, IsOneMore};
ghost use Rattle.desk_runs.specs.Changes.{changed};
ghost use Rattle.desk_runs.specs.Sound.{IsSound, IsWithdrawable, CanChange};
ghost use Rattle.desk_runs.specs.Reports.{withdrawn, reported};

use crate::by_number::{at_place, count_pending, group_of, keep_open, place_of, put_groups};
use crate::change::{Change, Moved, Reported};
use crate::changing::canceled;
use crate::expiry::expire;
use crate::group::{Ask, Group};
use crate::new_group::{pending_requests, push_owners};
use crate::observation::{Observation, is_placed};
use crate::one_group::{became_of, change_one, over_of, settled_group};
use crate::turn::{start, stop, without, without_one};
use plan_base::{GroupNo, ListOf, Op, RequestNo, RequestState, Sec};
use std::alloc::{AllocError, Global};
use std::marker::Model;

/// The groups of a desk with the states of their requests, and the published observations that haven't started and those
/// that are running, at a moment. Groups and requests are found by number at once, and closed groups aren't looked at again;
/// a moment, and `make`, go over all groups that are open, and each change copies the observations. What changes is first
/// looked for, by calls that may find no memory, and then made by `make`, which takes none.
pub struct Runs {
    len: u32,
    moment: Sec,
    groups: Vec<Group>,
    /// For each request the place of its group.
    owners: Vec<usize>,
    /// The numbers of the open groups, rising.
    opened: Vec<GroupNo>,
    /// How many requests are pending.
    pending: usize,
    kept: ListOf<Observation>,
    running: ListOf<Observation>,
    alloc: Global,
}

impl Drop for Runs {
    fn drop(self) {
        let Self {
            len: _,
            moment: _,
            groups: _,
            owners: _,
            opened: _,
            pending: _,
            kept: _,
            running: _,
            alloc: _,
        } = self;
    }
}

impl Model for Runs {
    ghost use Rattle.desk_runs.specs.Progress.{Progress};

    ghost Value = { Progress };

    ghost use Rattle.desk_runs.specs.Inside.{progress_of, IsRuns};

    ghost view = { progress_of };

    ghost invariant = { IsRuns };
}

impl Runs {
    /// No group, at a moment; slices have `len` seconds. It takes no memory.
    pub fn new(alloc: Global, len: u32, now: Sec) -> Self
        ensures { result ≡ record { len = len; moment = now; groups = []; kept = []; running = [] } }
    {
        Runs {
            len,
            moment: now,
            groups: Vec::new(alloc),
            owners: Vec::new(alloc),
            opened: Vec::new(alloc),
            pending: 0,
            kept: ListOf::new(alloc),
            running: ListOf::new(alloc),
            alloc,
        }
    }

    /// The moment.
    pub fn now(&self) -> Sec
        ensures now { result ≡ self.now.moment }
        ensures sound { IsSound self.now }
    {
        self.moment
    }

    /// How many groups there are; the next one has the number after it.
    pub fn groups(&self) -> usize
        ensures { result ≡ length self.now.groups }
    {
        self.groups.len()
    }

    /// How many requests there are; the next one has the number after it.
    pub fn requests(&self) -> usize
        ensures { result ≡ length (requests_of self.now.groups) }
    {
        self.owners.as_slice().len()
    }

    /// How many requests are pending.
    pub fn pending(&self) -> usize
        ensures { result ≡ pending_count self.now.groups }
    {
        self.pending
    }

    /// The numbers of the groups that are open, rising.
    pub fn open(&self) -> &[GroupNo]
        ensures { result.now ≡ map (λ g. g.number) (filter is_open self.now.groups) }
    {
        self.opened.as_slice()
    }

    /// The published observations that haven't started.
    pub fn kept(&self) -> &[Observation]
        ensures { result.now ≡ self.now.kept }
    {
        self.kept.as_slice()
    }

    /// The observations that are running.
    pub fn running(&self) -> &[Observation]
        ensures { result.now ≡ self.now.running }
    {
        self.running.as_slice()
    }

    /// Whether a request is running.
    pub fn is_running(&self, number: RequestNo) -> bool
        ensures { result ≡ is_placed self.now.running number }
    {
        is_placed(self.running.as_slice(), number)
    }

    /// The group with a number, if there is one.
    pub fn group(&self, number: GroupNo) -> Option<&Group>
        ensures { option_copied result ≡ group_at self.now.groups number }
    {
        let groups = self.groups.as_slice();
        let place = place_of(number.0)?;
        at_place(groups, place)
    }

    /// The group with a number, from 1 to that of the last group.
    pub fn known(&self, number: GroupNo) -> &Group
        requires { (1 ≤ number.0) × (number.0 ≤ length self.now.groups) }
        ensures { result.now ≡ group_of self.now.groups number }
    {
        group_of(self.groups.as_slice(), number)
    }

    /// The place of the group of a request, if there is a request with the number.
    fn place_with(&self, number: RequestNo) -> Option<usize>
        ensures { MatchOption result (group_with self.now.groups number ≡ None)
            (λ place. (place < length self.now.groups) × (group_with self.now.groups number ≡ Some (slice_index_or self.now.groups place no_group))) }
    {
        let owners = self.owners.as_slice();
        let place = place_of(number.0)?;
        at_place(owners, place).copied()
    }

    /// The group of a request, if there is a request with the number.
    pub fn group_with(&self, number: RequestNo) -> Option<&Group>
        ensures { option_copied result ≡ group_with self.now.groups number }
    {
        let place = self.place_with(number)?;
        at_place(self.groups.as_slice(), place)
    }

    /// What another moment does: observations begin and end, and requests become window expired. Fails only for want of
    /// memory.
    pub fn clock(&self, now: Sec) -> Result<Moved, AllocError>
        ensures started { IfOk result (λ m. m.started ≡ requests_in (beginning (at_moment now self.now))) }
        ensures failed { IfOk result (λ m. m.failed ≡ requests_in (ending (started (at_moment now self.now)))) }
        ensures expired { IfOk result (λ m. m.expired ≡ became_in is_window_expired self.now.groups (settle (at_moment now self.now)).groups) }
        ensures moved { IfOk result (λ m. changed self.now m.change ≡ settle (at_moment now self.now)) }
        ensures can { IfOk result (λ m. CanChange self.now m.change) }
    {
        let alloc = self.alloc;
        let kept = self.kept.as_slice();
        let started = start(alloc, kept, self.running.as_slice(), self.len, now)?;
        let stopped = stop(alloc, started.running.as_slice(), self.len, now)?;
        let running = stopped.running.as_slice();
        let opened = self.opened.as_slice();
        let expiry = expire(alloc, self.groups.as_slice(), opened, running, now)?;
        let kept = without(alloc, started.kept.as_slice(), expiry.requests.as_slice())?;
        Ok(Moved {
            started: started.requests,
            failed: stopped.requests,
            expired: ListOf::from_vec(expiry.requests),
            change: Change {
                now,
                groups: ListOf::from_vec(expiry.groups),
                kept: ListOf::from_vec(kept),
                running: ListOf::from_vec(stopped.running),
            },
        })
    }

    /// The group of a request that is running.
    fn group_of_running(&self, number: RequestNo) -> &Group
        requires { is_placed self.now.running number ≡ true }
        ensures { group_with self.now.groups number ≡ Some result.now }
    {
        // The call recalls, for the proof, that the state is sound.
        let _ = self.now();
        match self.group_with(number) {
            Some(group) => group,
            None => unreachable!(),
        }
    }

    /// What a withdrawal of a group does, of which no request runs: its pending requests are canceled, and their kept
    /// observations are dropped. Fails only for want of memory.
    pub fn withdraw(&self, number: GroupNo) -> Result<Change, AllocError>
        requires { IsWithdrawable number self.now }
        ensures withdrawn { IfOk result (λ change. changed self.now change ≡ withdrawn number self.now) }
        ensures can { IfOk result (λ change. CanChange self.now change) }
    {
        // The call recalls, for the proof, that the state is sound.
        let _ = self.now();
        let group = self.known(number);
        let after = canceled(self.alloc, group)?;
        let over = over_of(self.alloc, group, &after)?;
        let running = Vec::from_slice(self.alloc, self.running.as_slice())?;
        let kept = self.kept.as_slice();
        let change = change_one(
            self.alloc,
            self.moment,
            after,
            kept,
            over.as_slice(),
            running,
        )?;
        Ok(change)
    }

    /// What a report on a running request does: it stops running, is completed or not, in which case of a `ONEOF` the
    /// other pending members are canceled, and then the moment does what it does. Fails only for want of memory.
    pub fn report(&self, number: RequestNo, completes: bool) -> Result<Reported, AllocError>
        requires { is_placed self.now.running number ≡ true }
        ensures canceled { IfOk result (λ r. r.canceled ≡ became_in (is_in Canceled) self.now.groups (reported number completes self.now).groups) }
        ensures expired { IfOk result (λ r. r.expired ≡ became_in (is_in WindowExpired) self.now.groups (reported number completes self.now).groups) }
        ensures reported { IfOk result (λ r. changed self.now r.change ≡ reported number completes self.now) }
        ensures can { IfOk result (λ r. CanChange self.now r.change) }
    {
        let group = self.group_of_running(number);
        let running = without_one(self.alloc, self.running.as_slice(), number)?;
        let after = settled_group(
            self.alloc,
            group,
            number,
            completes,
            running.as_slice(),
            self.moment,
        )?;
        let canceled = became_of(self.alloc, RequestState::Canceled, group, &after)?;
        let expired = became_of(self.alloc, RequestState::WindowExpired, group, &after)?;
        let over = over_of(self.alloc, group, &after)?;
        let kept = self.kept.as_slice();
        let change = change_one(
            self.alloc,
            self.moment,
            after,
            kept,
            over.as_slice(),
            running,
        )?;
        Ok(Reported {
            canceled: ListOf::from_vec(canceled),
            expired: ListOf::from_vec(expired),
            change,
        })
    }

    /// Adds a group of so many requests, all pending, each with a window that ends after now. It gets the next number, and
    /// so do its requests. Fails only for want of memory, and then changes nothing.
    pub fn add(&mut self, op: Op, asks: &[Ask]) -> Result<GroupNo, AllocError>
        requires some { 1 ≤ length asks.now }
        requires late { All (λ a. self.old.moment.0 < a.last.0) asks.now }
        requires few { length (requests_of self.old.groups) + length asks.now < 2 ^ 32 }
        requires few_groups { length self.old.groups + 1 < 2 ^ 32 }
        ensures added { OnOk result (self.new ≡ with_group op asks.now self.old) }
        ensures number { IfOk result (λ number. number.0 ≡ length self.old.groups + 1) }
        ensures unchanged { OnErr result (self.new ≡ self.old) }
    {
        let place = self.groups.as_slice().len();
        let number = GroupNo(place as u32 + 1);
        let first = self.owners.as_slice().len() as u32 + 1;
        let requests = pending_requests(self.alloc, first, asks)?;
        self.groups.reserve(1)?;
        self.opened.reserve(1)?;
        push_owners(&mut self.owners, place, asks.len())?;
        self.opened.push_reserved(number);
        self.pending += asks.len();
        self.groups.push_reserved(Group {
            number,
            op,
            requests,
        });
        Ok(number)
    }

    /// Takes the group that was added last away again. It takes no memory.
    pub fn forget_last(&mut self)
        requires { (before : Progress) × IsOneMore before self.old }
        ensures { (before : Progress) → IsOneMore before self.old → self.new ≡ before }
    {
        let place = self.groups.as_slice().len() - 1;
        let count = self.groups[place].requests.len();
        let requests = self.owners.as_slice().len() - count;
        self.groups.truncate(place);
        self.owners.truncate(requests);
        self.opened.pop();
        self.pending -= count;
    }

    /// Publishes observations in the place of those that haven't started. They are of pending requests, none of them has begun,
    /// and of a `ONEOF` there is at most one, with those that run. It takes no memory.
    pub fn publish(&mut self, observations: ListOf<Observation>)
        requires { CanPublish observations self.old }
        ensures { self.new ≡ with_kept observations self.old }
    {
        self.kept = observations;
    }

    /// Makes a change that was looked for. It takes no memory.
    pub fn make(&mut self, change: Change)
        requires { CanChange self.old change }
        ensures { self.new ≡ changed self.old change }
    {
        let Change {
            now,
            groups,
            kept,
            running,
        } = change;
        put_groups(&mut self.groups, groups.into_vec());
        keep_open(&mut self.opened, self.groups.as_slice());
        self.pending = count_pending(self.groups.as_slice(), self.opened.as_slice());
        self.moment = now;
        self.kept = kept;
        self.running = running;
    }
}
