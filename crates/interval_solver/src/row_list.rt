// Rows of starts, one after another in one list.

ghost use Rattle.std.specs.Prelude.{◌≡◌, ◌<◌, ◌≤◌, [], ◌∷◌, ◌++◌, length, slice_range, IfOk, OnOk};
ghost use Rattle.plan_base.specs.Tables.{row};

use crate::start::Start;
use std::alloc::{AllocError, Global};
use std::marker::Model;

/// Rows of starts. Contracts see the list of the rows.
pub(crate) struct RowList {
    /// The starts of all rows, one row after another.
    starts: Vec<Start>,
    /// Where each row begins, and where the last one ends.
    bounds: Vec<usize>,
}

impl Drop for RowList {
    fn drop(self) {
        let Self {
            starts: _,
            bounds: _,
        } = self;
    }
}

impl Model for RowList {
    ghost use Rattle.std.specs.Prelude.{List};
    ghost use Rattle.interval_solver.specs.declared.start.Start.{Start};
    ghost use Rattle.interval_solver.specs.RowLists.{rows_of, AreBounds};

    ghost Value = { List (List Start) };

    ghost view = { λ r. rows_of r.starts.items r.bounds.items };

    ghost invariant = { λ r. AreBounds r.starts.items r.bounds.items };
}

impl RowList {
    /// No rows. Fails only for want of memory.
    pub(crate) fn new(alloc: Global) -> Result<RowList, AllocError>
        ensures { IfOk result (λ rows. rows ≡ []) }
    {
        Ok(RowList {
            starts: Vec::new(alloc),
            bounds: vec![in alloc; 0]?,
        })
    }

    /// Adds a row after the last one. Fails only for want of memory.
    pub(crate) fn push(&mut self, row: &[Start]) -> Result<(), AllocError>
        ensures { OnOk result (self.new ≡ self.old ++ row.now ∷ []) }
    {
        self.bounds.reserve(1)?;
        self.starts.extend_from_slice(row)?;
        let end = self.starts.as_slice().len();
        self.bounds.push_reserved(end);
        Ok(())
    }

    /// How many rows there are.
    pub(crate) fn len(&self) -> usize
        ensures { result ≡ length self.now }
    {
        self.bounds.len() - 1
    }

    /// The row at a place.
    pub(crate) fn row(&self, place: usize) -> &[Start]
        requires { place < length self.now }
        ensures { result.now ≡ row self.now place }
    {
        let bounds = self.bounds.as_slice();
        part(self.starts.as_slice(), bounds[place], bounds[place + 1])
    }

    /// The row at a place, or no starts where there is no row.
    pub(crate) fn row_or_none(&self, place: usize) -> &[Start]
        ensures { result.now ≡ row self.now place }
    {
        if place < self.len() {
            self.row(place)
        } else {
            &[]
        }
    }
}

/// The starts from one place to the one before another.
#[inline(always)]
fn part(starts: &[Start], from: usize, to: usize) -> &[Start]
    requires order { from ≤ to }
    requires within { to ≤ length starts.now }
    ensures { result.now ≡ slice_range starts.now from to }
{
    &starts[from..to]
}
