// A workload: the lines of a realistic night, drawn by a generator from one number.
#![tactic(auto)]

mod class;
mod draws;
mod laws;
mod line;
mod name;
mod one;
mod request;
mod subject;
mod workload;

pub use laws::{lines_are_read_back, so_many_lines, so_many_requests};
pub use workload::Workload;
