// Documents read as claims and snapshots.

mod claim;
mod group;
mod number;
mod publication;
mod sky;
mod snapshot;

pub use claim::read_claim;
pub use group::read_groups;
pub use publication::{read_publication, read_publication_bytes};
pub use snapshot::read_snapshot;
