// What a check with a forest says of a claim.

/// Why a claim isn't certified for a forest. An index is a place in the claim's list that is meant, from 0; those that a
/// check without a forest gives too mean what they mean there.
#[derive(Clone, Copy)]
pub enum ForestReason {
    /// The first placement of a request that the snapshot doesn't have.
    UnknownRequest { index: u32 },
    /// The first placement whose request was placed before it.
    PlacedTwice { index: u32 },
    /// The first placement that isn't a possible start.
    NotPossible { index: u32 },
    /// The first placement that shares a slice with one before it.
    Overlap { index: u32 },
    /// The first tree, by its place, that doesn't allow what is placed of it.
    NotAllowed { tree: usize },
    /// There isn't one price for each request.
    PriceCount { given: u64, wanted: u64 },
    /// The first price below -10^12 or above 10^12.
    PriceRange { index: u32 },
    /// There are prices of quotas, though a snapshot with a forest has no quota: `wanted` is 0.
    QuotaPriceCount { given: u64, wanted: u64 },
    /// The plan has another value.
    ValueDiffers { claimed: u64, found: u64 },
    /// The prices give another bound.
    BoundDiffers { claimed: u64, found: u64 },
}

/// Whether a claim is certified for a forest.
#[derive(Clone, Copy)]
pub enum ForestVerdict {
    /// It is, with its value and bound.
    Yes { value: u64, bound: u64 },
    /// It isn't, for this first reason.
    No(ForestReason),
}
