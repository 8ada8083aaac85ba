// Sorted sets of seconds: union, meet and difference in one pass each, look-ups by binary search.
#![tactic(auto)]

mod laws;
mod span;
mod spans;

pub use laws::{answers_are_short, meet_commutes, one_list, part_is_restored, union_commutes};
pub use span::common;
pub use spans::Spans;
