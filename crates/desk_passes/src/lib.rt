// A desk that callers call from threads of their own, each through a pass.
#![tactic(auto)]

mod calling;
mod desk;
mod holders;
mod rule;
mod seen;
mod shared;

pub use desk::SharedDesk;
pub use holders::{CallAnswer, Note, Pass, Receipt, Root};
pub use seen::{OpenTake, PassPlace, PassView, SeenEntry};
