// Changes that are looked for first, and then made without memory.

use crate::group::Group;
use crate::observation::Observation;
use plan_base::{ListOf, RequestNo, Sec};

/// What is other once a change is made.
#[derive(Drop)]
pub struct Change {
    /// The moment.
    pub now: Sec,
    /// The groups that it touches, as they then are, by rising numbers.
    pub groups: ListOf<Group>,
    /// The published observations that haven't started, all of them.
    pub kept: ListOf<Observation>,
    /// The observations that are running, all of them.
    pub running: ListOf<Observation>,
}

/// What a moment does. All requests are told in rising order.
#[derive(Drop)]
pub struct Moved {
    /// Those of which a kept observation began to run.
    pub started: ListOf<RequestNo>,
    /// Those of which a running observation stopped without a report.
    pub failed: ListOf<RequestNo>,
    /// Those that became window expired.
    pub expired: ListOf<RequestNo>,
    /// What it leaves, once it is made.
    pub change: Change,
}

/// What a report does. All requests are told in rising order.
#[derive(Drop)]
pub struct Reported {
    /// The other members of a `ONEOF` that were canceled.
    pub canceled: ListOf<RequestNo>,
    /// Those that became window expired.
    pub expired: ListOf<RequestNo>,
    /// What it leaves, once it is made.
    pub change: Change,
}
