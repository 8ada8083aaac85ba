// Entries as text.

mod entry;
mod reasons;
mod refusals;
mod replies;
mod values;
mod words;

pub use entry::{entry_text, write_entry};
