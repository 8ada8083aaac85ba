// The entries of a history.

use crate::reply::Reply;

/// Which part of its line an entry is.
#[derive(Clone, Copy)]
pub enum What {
    /// All of it.
    Line,
    /// The snapshot of a plan is taken.
    Take,
    /// The plan that was sought for that snapshot is published.
    Publish,
}

/// One entry of a history.
pub struct EventEntry {
    /// Who sent the line, 0 to 7.
    pub caller: u8,
    /// The line's place in the caller's script, 1 to 65,536.
    pub line: u32,
    /// Which step of the line it is.
    pub what: What,
    /// How many entries before it changed the desk, at most 524,288.
    pub version: u64,
    /// What is replied to it.
    pub reply: Reply,
}

impl Drop for EventEntry {
    fn drop(self) {
        let Self {
            caller: _,
            line: _,
            what: _,
            version: _,
            reply: _,
        } = self;
    }
}
