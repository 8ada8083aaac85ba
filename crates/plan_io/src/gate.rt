//! What threads pass on their way, so that a test can order them.

/// A point that a thread passes. Lines are counted from 1, callers, workers, lanes and rounds from 0.
#[derive(Clone, Copy)]
pub enum Point {
    /// A caller is about to do its line; the lock isn't held.
    BeforeLine { caller: u8, line: u32 },
    /// A caller has taken the snapshot of its line; the lock isn't held.
    AfterTake { caller: u8, line: u32 },
    /// A caller has done its line; the lock isn't held.
    AfterLine { caller: u8, line: u32 },
    /// A worker has made a round of a lane.
    AfterRound { worker: u32, lane: u32, round: u32 },
}

/// What a thread passes at each point.
///
/// `pass` returns, and changes nothing that the program answers. A test's gate may hold a thread for a while.
pub trait Gate: Sync {
    /// Called by the thread that has come to `point`.
    fn pass(&self, point: Point);
}

/// The gate of the programs, which does nothing.
#[derive(Clone, Copy)]
pub struct NoGate;

impl Gate for NoGate {
    fn pass(&self, _point: Point) {}
}
