// What becomes of a group that is inserted.

use plan_base::Placement;

/// Where the request of a group that was inserted is placed.
#[derive(Clone, Copy)]
pub enum Inserted {
    /// Here: at its earliest start, on the lowest telescope among equals, at which the plan is feasible once all that has to go
    /// for it is gone, and which is worth more than that.
    Placed(Placement),
    /// Nowhere: no start of it qualifies, and the plan stays.
    NoPlace,
}
