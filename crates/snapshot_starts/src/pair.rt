// Each request with each of its telescopes.

ghost use Rattle.std.specs.Prelude.{◌≡◌, ◌++◌, IfOk, OnOk};
ghost use Rattle.snapshot_starts.specs.Pairs.{pairs_of, pairs_of_request};

use interval_set::Spans;
use plan_base::{RequestNo, RequestPart, Snapshot, TelescopeNo};
use std::alloc::{AllocError, Global};

/// A request on one of its telescopes.
#[derive(Clone, Copy)]
pub(crate) struct Pair {
    /// The number of the request.
    pub request: RequestNo,
    /// One of the telescopes that can take it.
    pub telescope: TelescopeNo,
}

/// A pair with the slices at which it has a possible start.
#[derive(Drop)]
pub(crate) struct PairSlices {
    /// The request and its telescope.
    pub pair: Pair,
    /// The slices, where other spans have seconds.
    pub slices: Spans,
}

/// All pairs, in the order of request and telescope.
pub(crate) fn pairs_of(alloc: Global, snapshot: &Snapshot) -> Result<Vec<Pair>, AllocError>
    ensures { IfOk result (λ pairs. pairs.items ≡ pairs_of snapshot.now) }
{
    let mut pairs = Vec::new(alloc);
    for place in 0..snapshot.request_count() {
        push_pairs(&mut pairs, snapshot.request_at(place))?;
    }
    Ok(pairs)
}

fn push_pairs(pairs: &mut Vec<Pair>, request: &RequestPart) -> Result<(), AllocError>
    ensures { OnOk result (pairs.new.items ≡ pairs.old.items ++ pairs_of_request request.now) }
{
    for telescope in request.telescopes.as_slice() {
        pairs.push(Pair {
            request: request.request,
            telescope: *telescope,
        })?;
    }
    Ok(())
}
