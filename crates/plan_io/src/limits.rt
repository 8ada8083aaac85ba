//! The limits of what is read.

/// The most bytes of a document, and of the lines of a session of one caller.
pub const MOST_BYTES: u64 = 67_108_864;

/// The most lines of a session, of one caller or of several, and so of each caller.
pub const MOST_LINES: u32 = 65_536;
