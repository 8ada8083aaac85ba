// The order in which groups, and the requests of a ONEOF, are tried.

ghost use Rattle.std.specs.Prelude.{◌≡◌, map, IfOk};
ghost use Rattle.repair.specs.Orders.{AreRanks, IsFallingOrder};

use std::alloc::{AllocError, Global};
use std::cmp::Reverse;

/// The place of a worth, ordered by the worth, falling, and then by itself.
#[derive(Clone, Copy, PartialEq, Eq, PartialOrd, Ord)]
pub(crate) struct Rank {
    /// The worth, of which the greatest comes first.
    pub worth: Reverse<u64>,
    /// Its place among all worths.
    pub place: usize,
}

/// The places of all worths, by falling worth, then by place. Fails only for want of memory.
pub(crate) fn falling_order(alloc: Global, worths: &[u64]) -> Result<Vec<usize>, AllocError>
    ensures { IfOk result (λ order. IsFallingOrder worths.now order.items) }
{
    let mut ranks = ranks_of(alloc, worths)?;
    ranks.sort_unstable();
    places_of(alloc, &ranks)
}

/// The ranks of all worths, in their order.
fn ranks_of(alloc: Global, worths: &[u64]) -> Result<Vec<Rank>, AllocError>
    ensures { IfOk result (λ ranks. AreRanks worths.now ranks.items) }
{
    let mut ranks = Vec::with_capacity(alloc, worths.len())?;
    for place in 0..worths.len() {
        ranks.push(Rank {
            worth: Reverse(worths[place]),
            place,
        })?;
    }
    Ok(ranks)
}

fn places_of(alloc: Global, ranks: &[Rank]) -> Result<Vec<usize>, AllocError>
    ensures { IfOk result (λ places. places.items ≡ map (λ rank. rank.place) ranks.now) }
{
    ranks.iter().map(|rank| rank.place).collect(alloc)
}
