// Possible starts as the rows of a telescope have them.

/// A possible start, in the row of its slice.
#[derive(Clone, Copy)]
pub(crate) struct Start {
    /// What it is worth: at most 288,000,000.
    pub worth: u32,
    /// The place of its request among all.
    pub place: u16,
    /// The row of the slice after its last.
    pub after: u16,
}
