// One more request put into a plan that stands, with its bound.
#![tactic(auto)]

mod document;
mod fault;
mod held;
mod inserted;
mod known;
mod laws;
mod making;
mod placing;
mod pricing;
mod raising;
mod rapid;
mod run;
mod seeking;
mod striking;
mod tables;
mod written;

pub use fault::RapidFault;
pub use inserted::Inserted;
pub use laws::{insertions_are_certified, insertions_are_checked, refusals_decide};
pub use rapid::{Rapid, RapidAnswer};
pub use run::run_rapid;
