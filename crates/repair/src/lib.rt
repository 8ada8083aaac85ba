// Plans made greedily, and repaired from the starts that prices give.
#![tactic(auto)]

mod draft;
mod entry;
mod fill;
mod find;
mod firsts;
mod greedy_plan;
mod marks;
mod offers;
mod order;
mod ranked;
mod repairer;
mod trials;
mod visit;
mod wholes;
mod worth;

pub use greedy_plan::greedy;
pub use repairer::Repairer;
