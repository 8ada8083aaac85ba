// Commands read from lines.

mod account;
mod group;
mod line;
mod network;
mod publication;
mod scope;
mod session;
mod verb;

pub use line::read_command;
