// Why a claim leaves requests out.
#![tactic(auto)]

mod answer;
mod blocking;
mod chart;
mod choice;
mod crossing;
mod laws;
mod left;
mod passage;
mod run;
mod told;
mod until;
mod why;

pub use answer::{Blocking, ExplainAnswer, Explanation, Forced, Left};
pub use laws::forced_bounds_plans;
pub use run::run_explain;
pub use why::explain;
