// What a check says of a claim.

use crate::number::GroupNo;

/// Why a claim isn't certified. An index is a place in the claim's list that is meant, from 0.
#[derive(Clone, Copy)]
pub enum Reason {
    /// The first placement of a request that the snapshot doesn't have.
    UnknownRequest { index: u32 },
    /// The first placement whose request was placed before it.
    PlacedTwice { index: u32 },
    /// The first placement that isn't a possible start.
    NotPossible { index: u32 },
    /// The first placement that shares a slice with one before it.
    Overlap { index: u32 },
    /// The first `ONEOF` group with two placements.
    OneofTwice { group: GroupNo },
    /// The first `AND` group that is placed in part.
    AndPartial { group: GroupNo },
    /// The first quota that is passed, with the seconds that are placed and the most that may be.
    QuotaOver { quota: u32, seconds: u64, most: u64 },
    /// There isn't one price for each request.
    PriceCount { given: u64, wanted: u64 },
    /// The first price below -10^12 or above 10^12.
    PriceRange { index: u32 },
    /// The list of quota prices isn't empty and hasn't one for each quota.
    QuotaPriceCount { given: u64, wanted: u64 },
    /// The first quota price above 200,000.
    QuotaPriceRange { index: u32 },
    /// The plan has another value.
    ValueDiffers { claimed: u64, found: u64 },
    /// The prices give another bound.
    BoundDiffers { claimed: u64, found: u64 },
}

/// Whether a claim is certified for a snapshot.
#[derive(Clone, Copy)]
pub enum Verdict {
    /// It is, with its value and bound.
    Yes { value: u64, bound: u64 },
    /// It isn't, for this first reason.
    No(Reason),
}
