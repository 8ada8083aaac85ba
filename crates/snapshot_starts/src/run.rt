// Rows of possible starts.

use plan_base::{RequestNo, SliceNo, TelescopeNo};

/// A greatest row of consecutive slices that are possible starts of one request on one telescope: neither the slice
/// before it nor the one after it is one.
#[derive(Clone, Copy, Debug, PartialEq, Eq)]
pub struct Run {
    /// The request that may start.
    pub request: RequestNo,
    /// The telescope on which it may.
    pub telescope: TelescopeNo,
    /// The first slice of the row.
    pub first: SliceNo,
    /// How many slices it has: at least 1, and at most as many as the horizon.
    pub count: u32,
}
