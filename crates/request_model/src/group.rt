// The request group.

ghost use Rattle.std.specs.Prelude.{◌≡◌, IfOk};

use crate::request::RequestDoc;
use plan_base::{ListOf, Name, Op};
use std::alloc::AllocError;

/// On which of its proposal's accounts a group is charged, the portal's `observation_type`. Plans don't heed it.
#[derive(Clone, Copy)]
pub enum ObsKind {
    /// `NORMAL`: on the account `standard`.
    Normal,
    /// `TIME_CRITICAL`: on the account `time_critical`.
    TimeCritical,
    /// `RAPID_RESPONSE`: on the account `rapid_response`.
    RapidResponse,
}

/// A request group, as its document has it.
#[derive(Clone)]
pub struct GroupDoc {
    /// What its proposal calls it. It needn't differ from other groups' names.
    pub name: Name,
    /// The proposal that is charged.
    pub proposal: Name,
    /// How the requests belong together.
    pub op: Op,
    /// Which of the proposal's accounts it is charged on.
    pub kind: ObsKind,
    /// The intra-proposal priority in thousandths, 500 to 2,000, of which 1,000 is neutral.
    pub ipp: u16,
    /// The priority, 1 to 100.
    pub priority: u8,
    /// 1 for `SINGLE`, 2 to 32 for the other operators.
    pub requests: ListOf<RequestDoc>,
}

impl GroupDoc {
    /// The same group once more. Fails only for want of memory.
    pub fn copy(&self) -> Result<GroupDoc, AllocError>
        ensures { IfOk result (λ copy. copy ≡ self.now) }
    {
        self.clone()
    }
}

impl Drop for GroupDoc {
    fn drop(self) {
        let Self {
            name: _,
            proposal: _,
            op: _,
            kind: _,
            ipp: _,
            priority: _,
            requests: _,
        } = self;
    }
}
