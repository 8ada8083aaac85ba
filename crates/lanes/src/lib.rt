// The rounds of all lanes, and the plan with its bound that they come to.
#![tactic(auto)]

mod bound_parts;
mod found;
mod lane;
mod lane_prices;
mod laws;
mod solve;
mod solving;
mod steps;
mod task;
mod worker;
mod worth;

pub use lane::Lane;
pub use laws::workers_agree;
pub use solve::{solve_plan, solve_plan_with};
pub use steps::RoundAnswer;
