// Claims and snapshots written as documents.

mod claim;
mod form;
mod line;
mod snapshot;

pub use claim::{ClaimDoc, write_claim};
pub use form::InDocument;
pub use line::answer_line;
pub use snapshot::{SnapshotDoc, write_snapshot};
