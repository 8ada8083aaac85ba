// The starts of a telescope, with those that stand for four.

ghost use Rattle.std.specs.Prelude.{◌≡◌, ◌<◌, length, IfOk};
ghost use Rattle.plan_base.specs.Tables.{row};

use crate::blocks::{singles_of, wholes_of};
use crate::row_list::RowList;
use crate::start::Start;
use std::alloc::{AllocError, Global};
use std::marker::Model;

/// Rows of starts, where one start may stand for the same at each slice of a block of four. Contracts see the list of
/// the rows.
pub(crate) struct StartRows {
    /// All starts.
    pub(crate) all: RowList,
    /// For each block the starts that stand for one at each of its slices.
    pub(crate) wholes: RowList,
    /// The other starts.
    pub(crate) singles: RowList,
}

impl Drop for StartRows {
    fn drop(self) {
        let Self {
            all: _,
            wholes: _,
            singles: _,
        } = self;
    }
}

impl Model for StartRows {
    ghost use Rattle.std.specs.Prelude.{List};
    ghost use Rattle.interval_solver.specs.declared.start.Start.{Start};
    ghost use Rattle.interval_solver.specs.Blocks.{IsCover};

    ghost Value = { List (List Start) };

    ghost view = { λ r. r.all };

    ghost invariant = { λ r. IsCover r.all r.wholes r.singles };
}

impl StartRows {
    /// The rows, in which the starts are ordered by place. Fails only for want of memory.
    pub(crate) fn new(alloc: Global, all: RowList) -> Result<StartRows, AllocError>
        ensures { IfOk result (λ rows. rows ≡ all) }
    {
        let wholes = wholes_of(alloc, &all)?;
        let singles = singles_of(alloc, &all, &wholes)?;
        Ok(StartRows {
            all,
            wholes,
            singles,
        })
    }

    /// How many rows there are.
    pub(crate) fn len(&self) -> usize
        ensures { result ≡ length self.now }
    {
        self.all.len()
    }

    /// The starts in a row.
    pub(crate) fn row(&self, slice: usize) -> &[Start]
        requires { slice < length self.now }
        ensures { result.now ≡ row self.now slice }
    {
        self.all.row(slice)
    }
}
