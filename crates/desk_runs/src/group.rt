// Requests and groups.

ghost use Rattle.std.specs.Prelude.{◌≡◌, ◌≤◌, length};
ghost use Rattle.plan_base.specs.States.{is_completed, is_in};
ghost use Rattle.desk_runs.specs.States.{any_in, all_in, is_open, is_done, state_of};
ghost use Rattle.desk_runs.specs.Clock.{is_waiting, is_past, with_state, is_lost};
ghost use Rattle.desk_runs.specs.Owners.{pending_of};

use crate::observation::{Observation, is_placed};
use plan_base::{GroupNo, ListOf, Op, RequestNo, RequestState, Sec};

/// What is asked for as a request.
#[derive(Clone, Copy)]
pub struct Ask {
    /// How long it takes, 1 to 86,400 seconds.
    pub seconds: u32,
    /// The greatest end of its windows.
    pub last: Sec,
}

/// A request of a group.
#[derive(Clone, Copy)]
pub struct Request {
    /// From 1 on, through all groups.
    pub number: RequestNo,
    /// How long it takes, 1 to 86,400 seconds.
    pub seconds: u32,
    /// The greatest end of its windows.
    pub last: Sec,
    /// Whether it is still to be observed, and else how it ended.
    pub state: RequestState,
}

/// A request group.
pub struct Group {
    /// From 1 on, in the order in which groups are added.
    pub number: GroupNo,
    /// Which of its requests are to be observed.
    pub op: Op,
    /// Its requests, in rising order.
    pub requests: ListOf<Request>,
}

impl Drop for Group {
    fn drop(self) {
        let Self {
            number: _,
            op: _,
            requests: _,
        } = self;
    }
}

impl Request {
    /// The same request in another state.
    pub(crate) fn in_state(self, state: RequestState) -> Request
        ensures { result ≡ with_state state self }
    {
        Request {
            number: self.number,
            seconds: self.seconds,
            last: self.last,
            state,
        }
    }

    /// Whether it is pending and isn't running.
    pub fn is_waiting(&self, running: &[Observation]) -> bool
        ensures { result ≡ is_waiting running.now self.now }
    {
        self.state.is_pending() && !is_placed(running, self.number)
    }

    /// Whether it is waiting and the greatest end of its windows is now or before.
    pub(crate) fn is_past(&self, running: &[Observation], now: Sec) -> bool
        ensures { result ≡ is_past running.now now self.now }
    {
        self.last.0 <= now.0 && self.is_waiting(running)
    }
}

impl Group {
    /// Whether a member is in this state.
    pub fn has_state(&self, state: RequestState) -> bool
        ensures { result ≡ any_in (is_in state) self.now }
    {
        self.requests.as_slice().iter().any(|q| q.state.is(state))
    }

    /// Whether a member is pending.
    pub fn is_open(&self) -> bool
        ensures { result ≡ is_open self.now }
    {
        self.requests
            .as_slice()
            .iter()
            .any(|q| q.state.is_pending())
    }

    /// Whether all members are completed.
    fn is_all_completed(&self) -> bool
        ensures { result ≡ all_in is_completed self.now }
    {
        self.requests
            .as_slice()
            .iter()
            .all(|q| q.state.is_completed())
    }

    /// Whether all members of an `AND` are completed, or one of another group.
    fn is_done(&self) -> bool
        ensures { result ≡ is_done self.now }
    {
        if self.op.is_and() {
            self.is_all_completed()
        } else {
            self.has_state(RequestState::Completed)
        }
    }

    /// The state of the group.
    pub fn state(&self) -> RequestState
        ensures { result ≡ state_of self.now }
    {
        if self.is_open() {
            RequestState::Pending
        } else if self.is_done() {
            RequestState::Completed
        } else if self.has_state(RequestState::Canceled) {
            RequestState::Canceled
        } else {
            RequestState::WindowExpired
        }
    }

    /// How many requests are pending.
    pub fn pending(&self) -> usize
        ensures pending { result ≡ pending_of self.now }
        ensures most { result ≤ length self.now.requests }
    {
        self.requests
            .as_slice()
            .iter()
            .filter(|q| q.state.is_pending())
            .count()
    }

    /// Whether it is an `AND` with a window expired member.
    pub(crate) fn is_lost(&self) -> bool
        ensures { result ≡ is_lost self.now }
    {
        self.op.is_and() && self.has_state(RequestState::WindowExpired)
    }
}
