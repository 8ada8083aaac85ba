// A change that the desk makes: the groups go on, and what they hold with them.

ghost use Rattle.std.specs.Prelude.{◌≡◌, ◌+◌, ◌^◌, ◌≤◌, ◌++◌, ◌∷◌, [], IfOk, OnOk, OnErr};
ghost use Rattle.allocations.specs.Books.{total_seconds};
ghost use Rattle.desk_runs.specs.Changes.{changed};
ghost use Rattle.desk_runs.specs.Sound.{CanChange};
ghost use Rattle.desk_runs.specs.declared.group.Group.{Group};
ghost use Rattle.desk_core.specs.declared.desk.Submitted.{Submitted};
ghost use Rattle.desk_core.specs.Desk.{seen};
ghost use Rattle.desk_core.specs.Endings.{IsToldAt, endings_of, told_along};
ghost use Rattle.desk_core.specs.Holds.{with_progress, refunds_of};
ghost use Rattle.desk_core.specs.Kept.{IsDesk, standing_seconds};

use crate::desk::Desk;
use crate::ending::{Ending, end_groups, find_ending, refunds_in};
use desk_events::GroupRefund;
use desk_runs::{Change, Group};
use plan_base::ListOf;
use std::alloc::{AllocError, Global};

impl Desk {
    /// Adds what becomes of what a group holds that has gone on, if it was open.
    fn push_ending(
        &self,
        alloc: Global,
        endings: &mut Vec<Ending>,
        after: &Group,
    ) -> Result<(), AllocError>
        requires { (p : Submitted × (Group × Group)) × IsToldAt (seen self.now) p after.now }
        ensures { (p : Submitted × (Group × Group)) → IsToldAt (seen self.now) p after.now
            → OnOk result (endings.new.items ≡ endings.old.items ++ endings_of (p ∷ [])) }
    {
        let before = self.runs.known(after.number);
        if !before.is_open() {
            return Ok(());
        }
        let submitted = self.submission(after.number);
        let ending = find_ending(alloc, submitted, before, after)?;
        endings.push(ending)?;
        Ok(())
    }

    /// What becomes of what open groups hold that a change tells.
    fn endings(&self, alloc: Global, change: &Change) -> Result<Vec<Ending>, AllocError>
        requires desk { IsDesk (seen self.now) }
        requires can { CanChange self.now.runs change.now }
        ensures { IfOk result (λ endings. endings.items
            ≡ endings_of (told_along change.entry.now.groups (seen self.now) (changed self.now.runs change.entry.now))) }
    {
        let mut endings = Vec::new(alloc);
        let told = change.groups.as_slice();
        for after in told {
            self.push_ending(alloc, &mut endings, after)?;
        }
        Ok(endings)
    }

    /// Makes a change, after which groups hold what their pending requests need, and the ipp charges of those that stop
    /// being pending with no member completed are given back, as the answer tells. Room is left in the ledger for so many
    /// entries, at most one. Fails only for want of memory, and then changes nothing.
    pub(crate) fn go_on(
        &mut self,
        alloc: Global,
        change: Change,
        room: u32,
    ) -> Result<ListOf<GroupRefund>, AllocError>
        requires desk { IsDesk (seen self.old) }
        requires can { CanChange self.old.runs change }
        requires few { total_seconds self.old.ledger.books + standing_seconds self.old.ledger.books.holds ≤ 10 ^ 18 }
        requires room { room ≤ 1 }
        ensures seen { OnOk result (seen self.new ≡ with_progress (changed self.old.runs change) (seen self.old)) }
        ensures refunds { IfOk result (λ refunds. refunds ≡ refunds_of (seen self.old) (changed self.old.runs change)) }
        ensures spare { OnOk result (room ≤ self.new.ledger.spare) }
        ensures unchanged { OnErr result (seen self.new ≡ seen self.old) }
    {
        let endings = self.endings(alloc, &change)?;
        let refunds = refunds_in(alloc, endings.as_slice())?;
        self.ledger.reserve(endings.len() as u32 + room)?;
        end_groups(&mut self.ledger, endings.as_slice());
        self.runs.make(change);
        Ok(refunds)
    }
}
