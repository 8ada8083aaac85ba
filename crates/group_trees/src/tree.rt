// Trees of requests.

use plan_base::RequestNo;

/// The parts of a node, in their order.
pub type Children = Vec<Tree>;

/// Which requests may be placed together.
pub enum Tree {
    /// One request.
    Leaf(RequestNo),
    /// Whatever each of the parts allows.
    Many(Children),
    /// What one of the parts allows, or nothing.
    OneOf(Children),
    /// Something of each of the parts, or nothing.
    And(Children),
}

impl Drop for Tree {
    fn drop(self) {
        match self {
            Self::Leaf(_) => {}
            Self::Many(_) => {}
            Self::OneOf(_) => {}
            Self::And(_) => {}
        }
    }
}
