// The possible starts of a snapshot, kept as runs of slices.
#![tactic(auto)]

mod cache;
mod fault;
mod find;
mod found;
mod held;
mod list;
mod mend;
mod observation;
mod pair;
mod possible;
mod run;
mod search;
mod shared;
mod slices;
mod steady;
mod telescope;

pub use cache::StartCache;
pub use fault::StartFault;
pub use find::starts;
pub use list::Starts;
pub use possible::is_possible;
pub use run::Run;
