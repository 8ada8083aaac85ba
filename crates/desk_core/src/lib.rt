// The desk of an observatory: what each command does to its state, and the snapshot that a plan is made of.
#![tactic(auto)]

mod amending;
mod answering;
mod asking;
mod closing;
mod desk;
mod ending;
mod fitting;
mod going_on;
mod holding;
mod horizon;
mod listing;
mod publishing;
mod registering;
mod set;
mod showing;
mod snapshot;
mod state;
mod submitting;
mod targets;
mod timing;

pub use desk::{Desk, Opening, Publication, Submitted, Wanted};
pub use state::State;
