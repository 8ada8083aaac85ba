// Plans that are built placement by placement, and what a group gives and takes at prices.
#![tactic(auto)]

mod footprint;
mod nets;
mod places;
mod plan;
mod rebates;
mod slots;
mod sums;
mod tables;
mod taking;

pub use nets::net;
pub use places::Places;
pub use plan::PlanBuild;
pub use rebates::{choice, member_count, rebate};
pub use slots::Slots;
pub use tables::add_seconds;
pub use taking::Taking;
