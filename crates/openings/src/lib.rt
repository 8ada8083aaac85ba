// Where a request may start.
#![tactic(auto)]

mod opening;

pub use opening::{Openings, openings_of};
