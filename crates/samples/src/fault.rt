// Why a sample has no snapshot.

use plan_base::SnapshotFault;
use std::alloc::AllocError;
use thiserror::Error;

/// Why a sample has no snapshot.
#[derive(Clone, Copy, Debug, Error)]
pub enum SampleFault {
    /// One of its numbers is not in the range that a document allows it.
    #[error("a number is out of its range")]
    OutOfRange,
    /// Its parts are no snapshot, or memory is wanting.
    #[error("{0}")]
    NoSnapshot(SnapshotFault),
}

impl From<AllocError> for SampleFault {
    fn from(_: AllocError) -> SampleFault {
        SampleFault::NoSnapshot(SnapshotFault::NoMemory)
    }
}
