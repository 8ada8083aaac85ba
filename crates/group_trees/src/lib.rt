// Trees of request groups: which requests they allow together, what they give at prices, and the check of a claim with
// them.
#![tactic(auto)]

mod asked;
mod branch;
mod check;
mod fault;
mod forest;
mod guesses;
mod laws;
mod leaves;
mod levels;
mod read;
mod rebate;
mod refusal;
mod run;
mod standing;
mod text;
mod tree;
mod turned;
mod verdict;

pub use check::check_forest;
pub use fault::ForestFault;
pub use forest::Forest;
pub use laws::forest_duality;
pub use rebate::tree_rebate;
pub use run::run_forest;
pub use tree::{Children, Tree};
pub use verdict::{ForestReason, ForestVerdict};
