// The rounds in which prices are sought that give a low bound.
#![tactic(auto)]

mod bound;
mod demands;
mod moves;
mod round;
mod steps;
mod taken;
mod zeros;

pub use bound::lagrangian;
pub use round::advance;
pub use steps::step_of;
pub use zeros::{zero_prices, zero_quota_prices};
