// A snapshot with a certified claim, into which groups are inserted.

ghost use Rattle.std.specs.Prelude.{◌≡◌, ◌≢◌, None, Some, IfOk, IfErr, OnOk, OnErr};
ghost use Rattle.plan_base.specs.Verdict.{IsCertified};
ghost use Rattle.rapid.specs.Refused.{refusal_of, IsGroupInRanges};
ghost use Rattle.rapid.specs.Insertion.{IsInsertion};
ghost use Rattle.rapid.specs.Answer.{IsAnswer};
ghost use Rattle.rapid.specs.declared.fault.RapidFault.TheVariants.{NoMemory};

use crate::fault::RapidFault;
use crate::inserted::Inserted;
use crate::making::make;
use crate::tables::tables_of;
use bound_checker::check;
use plan_base::{Claim, GroupPart, ListOf, Reason, RequestNo, Snapshot, Verdict};
use std::alloc::{AllocError, Global};
use std::marker::Model;

/// A snapshot with a claim that is certified for it. Groups of one request are inserted one after another, and the claim
/// stays certified, its bound that of its prices. What each telescope gives from each slice on is kept, and an insertion makes
/// it anew only where a start of its request gives more. Contracts see the snapshot, the claim, and the requests that the
/// last insertion displaced.
pub struct Rapid {
    snapshot: Snapshot,
    claim: Claim,
    /// What each telescope gives from each slice of the horizon on, at the claim's prices.
    tables: ListOf<ListOf<i64>>,
    displaced: ListOf<RequestNo>,
    alloc: Global,
}

impl Drop for Rapid {
    fn drop(self) {
        let Self {
            snapshot: _,
            claim: _,
            tables: _,
            displaced: _,
            alloc: _,
        } = self;
    }
}

impl Model for Rapid {
    ghost use Rattle.plan_base.specs.Verdict.{IsCertified};
    ghost use Rattle.rapid.specs.Standing.{Standing};
    ghost use Rattle.rapid.specs.Tables.{AreTables};

    ghost Value = { Standing };

    ghost view = { λ a. record { snapshot = a.snapshot; claim = a.claim; displaced = a.displaced } };

    ghost invariant = { λ a. IsCertified a.snapshot a.claim × AreTables a.snapshot a.claim.prices.0 a.tables };
}

/// Whether groups can be inserted into a claim.
#[derive(Drop)]
pub enum RapidAnswer {
    /// They can.
    Ready(Rapid),
    /// They can't, since the claim isn't certified, for this first reason.
    No(Reason),
}

impl Rapid {
    /// The snapshot and the claim, where the claim is certified, or the first reason why it isn't, as [`check`] has it.
    /// Fails only for want of memory.
    pub fn new(alloc: Global, snapshot: &Snapshot, claim: Claim) -> Result<RapidAnswer, AllocError>
        ensures { IfOk result (IsAnswer snapshot.now claim) }
    {
        match check(alloc, snapshot, &claim)? {
            Verdict::Yes { .. } => {
                let tables = tables_of(alloc, snapshot, &claim.prices)?;
                Ok(RapidAnswer::Ready(Rapid {
                    snapshot: snapshot.clone()?,
                    claim,
                    tables,
                    displaced: ListOf::new(alloc),
                    alloc,
                }))
            }
            Verdict::No(reason) => Ok(RapidAnswer::No(reason)),
        }
    }

    /// Inserts a group of one request. The snapshot has the group at its end then. The request takes the earliest start, on
    /// the lowest telescope among equals, at which the plan is feasible once all that has to go for it is gone, and which is
    /// worth more than that: what shares a slice with it, and the whole of each `AND` of which something does. Where there is
    /// none, the plan stays. The request's price is 0 where the bound is then below the old one and the request's value
    /// together, else its value; the other prices stay.
    ///
    /// The group's seconds, value and moments are in the ranges that a document allows them. A group that isn't a `SINGLE`
    /// is refused, and then one with which the parts aren't a snapshot, for their first fault. A refusal and want of memory
    /// change nothing.
    pub fn insert(&mut self, group: GroupPart) -> Result<Inserted, RapidFault>
        requires { IsGroupInRanges group }
        ensures ok { IfOk result (λ inserted. IsInsertion self.old group inserted self.new) }
        ensures accepted { OnOk result (refusal_of self.old.snapshot group ≡ None) }
        ensures err { OnErr result (self.new ≡ self.old) }
        ensures fault { IfErr result (λ fault. fault ≢ NoMemory → refusal_of self.old.snapshot group ≡ Some fault) }
    {
        let tables = self.tables.as_slice();
        let made = make(self.alloc, &self.snapshot, &self.claim, tables, group)?;
        self.snapshot = made.snapshot;
        self.claim = made.priced.claim;
        self.tables = made.priced.tables;
        self.displaced = made.priced.displaced;
        Ok(made.priced.inserted)
    }

    /// The claim: after an insertion its placements are by telescope, then slice.
    pub fn claim(&self) -> &Claim
        ensures value { result.now ≡ self.now.claim }
        ensures certified { IsCertified self.now.snapshot self.now.claim }
    {
        &self.claim
    }

    /// The snapshot, with the groups that were inserted at its end.
    pub fn snapshot(&self) -> &Snapshot
        ensures value { result.now ≡ self.now.snapshot }
        ensures certified { IsCertified self.now.snapshot self.now.claim }
    {
        &self.snapshot
    }

    /// The requests that the last insertion displaced, in rising order; none before the first.
    pub fn displaced(&self) -> &[RequestNo]
        ensures { result.now ≡ self.now.displaced }
    {
        self.displaced.as_slice()
    }

    /// The same as a list.
    pub(crate) fn displaced_list(&self) -> &ListOf<RequestNo>
        ensures { result.now ≡ self.now.displaced }
    {
        &self.displaced
    }
}
