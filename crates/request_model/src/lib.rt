// Request groups as documents: what a group asks for, as it was submitted.
#![tactic(auto)]

mod fault;
mod group;
mod laws;
mod read;
mod request;
mod time_fault;
mod write;

pub use fault::GroupFault;
pub use group::{GroupDoc, ObsKind};
pub use laws::{groups_are_in_range, groups_are_read_back};
pub use read::read_group;
pub use request::{Cadence, ConfigDoc, Exposure, Location, RequestDoc, When};
pub use time_fault::TimeFault;
pub use write::write_group;
