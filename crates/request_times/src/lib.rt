// How long a request takes, and the windows of a cadence.
#![tactic(auto)]

mod cadence;
mod duration;
mod instrument;
mod laws;

pub use cadence::expand_cadence;
pub use duration::seconds_of;
pub use instrument::Instrument;
pub use laws::{centres_are_counted, windows_are_sound};
pub use request_model::TimeFault;
