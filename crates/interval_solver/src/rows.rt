// The rows of the telescopes of a snapshot.

ghost use Rattle.std.specs.Prelude.{◌≡◌, length, IfOk};
ghost use Rattle.plan_base.specs.Starts.{IsPossibleStart};
ghost use Rattle.snapshot_starts.specs.Runs.{AreAllStarts};
ghost use Rattle.interval_solver.specs.Listings.{IsListing};
ghost use Rattle.interval_solver.specs.Solving.{AreRowsOf};

use crate::listing::list_starts;
use crate::start_rows::StartRows;
use plan_base::{Snapshot, TelescopeNo};
use snapshot_starts::Starts;
use std::alloc::{AllocError, Global};
use std::marker::Model;

/// The possible starts of one telescope by slice, with what each is worth. They depend on no price: they are made once
/// for a snapshot and lent to all that seek bests at prices. Contracts see the snapshot's parts and the telescope.
pub struct Rows<'a> {
    pub(crate) snapshot: &'a Snapshot,
    pub(crate) telescope: TelescopeNo,
    pub(crate) starts: StartRows,
}

impl Drop for Rows<'_> {
    fn drop(self) {
        let Self {
            snapshot: _,
            telescope: _,
            starts: _,
        } = self;
    }
}

impl<'a> Model for Rows<'a> {
    ghost use Rattle.plan_base.specs.Starts.{IsPossibleStart};
    ghost use Rattle.interval_solver.specs.Listings.{IsListing};
    ghost use Rattle.interval_solver.specs.Solving.{RowsOf};

    ghost Value = { RowsOf };

    ghost view = { λ a. record { snapshot = a.snapshot.now; telescope = a.telescope.0 } };

    ghost invariant = { λ a. IsListing a.snapshot.now a.telescope.0 (IsPossibleStart a.snapshot.now) a.starts };
}

impl<'a> Rows<'a> {
    /// The rows of a telescope. The starts are all possible starts of the snapshot. Fails only for want of memory.
    pub fn new(
        alloc: Global,
        telescope: TelescopeNo,
        snapshot: &'a Snapshot,
        starts: &Starts,
    ) -> Result<Rows<'a>, AllocError>
        requires { AreAllStarts snapshot.now starts.now }
        ensures { IfOk result (λ rows. rows ≡ record { snapshot = snapshot.now; telescope = telescope.0 }) }
    {
        let rows = list_starts(alloc, snapshot, telescope, starts)?;
        Ok(Rows {
            snapshot,
            telescope,
            starts: StartRows::new(alloc, rows)?,
        })
    }

    /// The rows of all telescopes of a snapshot, in their order. The starts are all its possible starts. Fails only for
    /// want of memory.
    pub fn of_all(
        alloc: Global,
        snapshot: &'a Snapshot,
        starts: &Starts,
    ) -> Result<Vec<Rows<'a>>, AllocError>
        requires { AreAllStarts snapshot.now starts.now }
        ensures { IfOk result (λ rows. AreRowsOf snapshot.now (length snapshot.now.telescopes) rows.items) }
    {
        let mut rows = Vec::new(alloc);
        let count = snapshot.parts().telescopes.len();
        for telescope in 0..count {
            rows.push(Rows::new(alloc, TelescopeNo(telescope as u16), snapshot, starts)?)?;
        }
        Ok(rows)
    }
}
