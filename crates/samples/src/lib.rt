// Small snapshots, which the tests of several crates are played on. Sources and sinks that fail, and the range of prices.
#![tactic(auto)]

mod desk;
mod ends;
mod fault;
mod make;
mod ranges;
mod sample;

pub use desk::{Desk, GroupWish, Groups, TelescopeWish, Wish};
pub use ends::{sink_of, source_of};
pub use fault::SampleFault;
pub use ranges::are_in_range;
pub use sample::{ONE, Sample, TWO, WHOLE_HORIZON};
