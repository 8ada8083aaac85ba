// Why trees aren't a forest.

use plan_base::{GroupNo, RequestNo};
use std::alloc::AllocError;
use thiserror::Error;

/// Why trees aren't a forest of a snapshot: the first thing in this order, each looked for in all of it before the next.
/// A tree is named by its place, from 0.
#[derive(Clone, Copy, Debug, Error)]
pub enum ForestFault {
    /// The first group that isn't a `SINGLE`.
    #[error("group {} isn't a SINGLE", group.0)]
    NotSingle { group: GroupNo },
    /// The snapshot has a quota.
    #[error("the snapshot has a quota")]
    HasQuota,
    /// The first tree of more than 16 levels; a leaf alone is one.
    #[error("tree {tree} has more than 16 levels")]
    TreeDeep { tree: usize },
    /// The first tree with a node that has no children.
    #[error("tree {tree} has a node without children")]
    TreeEmpty { tree: usize },
    /// The least number that is a leaf and no request, or a request that isn't a leaf exactly once.
    #[error("{} is a leaf and no request, or isn't a leaf exactly once", request.0)]
    TreeLeaf { request: RequestNo },
    /// Memory ran out.
    #[error("out of memory")]
    NoMemory,
}

impl From<AllocError> for ForestFault {
    ghost use Rattle.std.specs.Prelude.{◌≡◌};
    ghost use Rattle.group_trees.specs.declared.fault.ForestFault.TheVariants.{NoMemory};

    ghost from_gives = { λ _ fault. fault ≡ NoMemory };

    fn from(_refused: AllocError) -> ForestFault {
        ForestFault::NoMemory
    }
}
