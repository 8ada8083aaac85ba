// Snapshots and claims as documents both ways, and the check of a claim in a document.
#![tactic(auto)]

mod check;
mod fault;
mod laws;
mod publication;
mod read;
mod reason;
mod refusal;
mod write;

pub use check::run_check;
pub use fault::DocFault;
pub use laws::{
    certified_claims_are_in_range, claims_are_distinct, claims_are_in_range, claims_are_read_back,
    exports_are_certified, publications_are_read_back, snapshots_are_distinct,
    snapshots_are_in_range, snapshots_are_read_back,
};
pub use publication::Publication;
pub use read::{read_claim, read_groups, read_publication, read_publication_bytes, read_snapshot};
pub use reason::{ReasonFields, VerdictDoc, reason_fields, reason_name};
pub use write::{ClaimDoc, InDocument, SnapshotDoc, answer_line, write_claim, write_snapshot};
