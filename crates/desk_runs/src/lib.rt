// Requests and groups under way: their states, what the clock, reports and withdrawals do to them, and which published
// observations have yet to start or are running.
#![tactic(auto)]

mod by_number;
mod change;
mod changing;
mod expiry;
mod group;
mod laws;
mod new_group;
mod observation;
mod one_group;
mod runs;
mod turn;

pub use change::{Change, Moved, Reported};
pub use group::{Ask, Group, Request};
pub use laws::{
    a_moment_keeps_sound, a_moment_settles, a_withdrawal_commutes, changes_keep_sound,
    groups_only_go_on, what_is_over_stays,
};
pub use observation::Observation;
pub use runs::Runs;
