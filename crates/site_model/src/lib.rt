// The network: instruments, sites, telescopes and targets, with nights, closures and skies.
#![tactic(auto)]

mod calendar;
mod changes;
mod code;
mod fault;
mod laws;
mod names;
mod network;
mod telescope;

pub use code::{Code, InstrumentTimes, Scope};
pub use fault::{FullOf, SiteFault};
pub use laws::{latest_line_decides, skies_are_counted};
pub use network::Network;
