// The rows by which a snapshot's requests are found.

ghost use Rattle.std.specs.Prelude.{◌≡◌, ◌++◌, length, IfOk, OnOk};
ghost use Rattle.std.specs.List.Sorted.{IsBinarySearchResult, IsSearchInRange};
ghost use Rattle.std.specs.Ordering.{nat_cmp};
ghost use Rattle.plan_base.specs.Rows.{rows_within, rows_from};

use crate::number::RequestNo;
use crate::parts::GroupPart;
use std::alloc::{AllocError, Global};

/// Where a request stands.
#[derive(Clone, Copy)]
pub(crate) struct Row {
    /// Its number of the desk.
    pub request: RequestNo,
    /// The place of its group.
    pub group: usize,
    /// Its place in the group.
    pub place: usize,
}

/// The rows of all requests, in their order.
pub(crate) fn rows_of(alloc: Global, groups: &[GroupPart]) -> Result<Vec<Row>, AllocError>
    ensures { IfOk result (λ rows. rows.items ≡ rows_from 0 groups.now) }
{
    let mut rows = Vec::new(alloc);
    for (group, part) in groups.iter().enumerate() {
        push_rows(&mut rows, group, part)?;
    }
    Ok(rows)
}

fn push_rows(rows: &mut Vec<Row>, group: usize, part: &GroupPart) -> Result<(), AllocError>
    ensures { OnOk result (rows.new.items ≡ rows.old.items ++ rows_within group 0 part.now.requests) }
{
    for (place, request) in part.requests.as_slice().iter().enumerate() {
        rows.push(Row {
            request: request.request,
            group,
            place,
        })?;
    }
    Ok(())
}

/// Where the row of a request stands among rows that rise.
pub(crate) fn search_rows(rows: &[Row], request: RequestNo) -> Result<usize, usize>
    ensures bound { IsSearchInRange result (length rows.now) }
    ensures position { IsBinarySearchResult (λ row. nat_cmp row.request.0 request.0) rows.now result }
{
    rows.binary_search_by_key(&request.0, |row| row.request.0)
}
