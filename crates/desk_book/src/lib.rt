// The book of a desk: what a line does to the state, which lines each caller sends, what was done of them, and the state that this leaves.
#![tactic(auto)]

mod book;
mod doing;
mod laws;
mod same;
mod step;

pub use book::Book;
pub use doing::{apply_read, is_plan, publish_found, read_line, take_for};
pub use laws::{
    histories_are_made_again, one_replay, one_reply, over_is_whole, plans_are_stale_by_changes,
    text_tells_history, versions_count,
};
pub use step::{BookCall, BookStep, PublishStep};
