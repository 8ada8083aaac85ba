// Commands in, replies out: what a line asks for, and what an entry says.
#![tactic(auto)]

mod command;
mod entry;
mod fault;
mod faults;
mod laws;
mod read;
mod refusal;
mod reply;
mod write;

pub use command::Command;
pub use entry::{EventEntry, What};
pub use fault::CommandFault;
pub use laws::{claims_can_be_sent, entries_are_read_back, one_entry, one_history};
pub use read::read_command;
pub use refusal::{FullOf, Refusal};
pub use reply::{AccountBalance, GroupRefund, MemberState, Reply};
pub use write::{entry_text, write_entry};
