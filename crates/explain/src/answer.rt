// What is said of the requests that a claim leaves out.

ghost use Rattle.std.specs.Prelude.{◌≡◌};

use plan_base::{ListOf, Placement, Reason, RequestNo};
use std::marker::Model;

/// The most that a feasible plan may be worth if it places a request.
#[derive(Clone, Copy, PartialEq, Eq)]
pub enum Forced {
    /// The request has no possible start, so no feasible plan places it.
    NoStart,
    /// No feasible plan that places the request is worth more.
    Bound(i64),
}

/// Placements of a claim that stand in the way of a request, in the claim's order. Contracts see them as a list.
pub struct Blocking {
    pub(crate) placements: ListOf<Placement>,
}

impl Drop for Blocking {
    fn drop(self) {
        let Self { placements: _ } = self;
    }
}

impl Model for Blocking {
    ghost use Rattle.std.specs.Prelude.{List};
    ghost use Rattle.plan_base.specs.declared.claim.Placement.{Placement};

    ghost Value = { List Placement };

    ghost view = { λ a. a.placements };
}

impl Blocking {
    /// The placements, in the claim's order.
    pub fn as_slice(&self) -> &[Placement]
        ensures { result.now ≡ self.now }
    {
        self.placements.as_slice()
    }

    /// The placements as a list.
    pub(crate) fn as_list(&self) -> &ListOf<Placement>
        ensures { result.now ≡ self.now }
    {
        &self.placements
    }
}

/// A request that a claim leaves out.
pub struct Left {
    /// The request.
    pub request: RequestNo,
    /// How many possible starts it has.
    pub starts: u64,
    /// The claim's placements that share a slice with one of them.
    pub blocking: Blocking,
    /// A bound on every feasible plan that has it.
    pub forced: Forced,
}

impl Drop for Left {
    fn drop(self) {
        let Self {
            request: _,
            starts: _,
            blocking: _,
            forced: _,
        } = self;
    }
}

/// The requests that a claim leaves out, in the snapshot's order. Contracts see them as a list.
pub struct Explanation {
    pub(crate) lefts: ListOf<Left>,
}

impl Drop for Explanation {
    fn drop(self) {
        let Self { lefts: _ } = self;
    }
}

impl Model for Explanation {
    ghost use Rattle.std.specs.Prelude.{List};
    ghost use Rattle.explain.specs.declared.answer.Left.{Left};

    ghost Value = { List Left };

    ghost view = { λ a. a.lefts };
}

impl Explanation {
    /// What is said of each request, in the snapshot's order.
    pub fn as_slice(&self) -> &[Left]
        ensures { result.now ≡ self.now }
    {
        self.lefts.as_slice()
    }
}

/// What is said of a claim.
#[derive(Drop)]
pub enum ExplainAnswer {
    /// It is certified, and this is what it leaves out.
    Explained(Explanation),
    /// It isn't certified, for this first reason.
    No(Reason),
}
