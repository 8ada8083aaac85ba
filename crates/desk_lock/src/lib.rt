// A desk that several callers share: its book lies under a lock, and each caller's lines are done by a thread of its own.
#![tactic(auto)]

mod desk;
mod finishing;
mod playing;
mod working;

pub use desk::{Desk, Sending};
pub use finishing::{finish, finish_book};
pub use playing::play;
pub use working::work;
