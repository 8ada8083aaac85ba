// Trees that were built for a snapshot.

ghost use Rattle.std.specs.Prelude.{◌≡◌, ◌≢◌, List, All, MatchOption, IfOk, IfErr};
ghost use Rattle.group_trees.specs.Trees.{Node, trees_seen};
ghost use Rattle.group_trees.specs.declared.fault.ForestFault.TheVariants.{NoMemory};
ghost use Rattle.plan_base.specs.declared.parts.Op.TheVariants.{Single};
ghost use Rattle.plan_base.specs.Verdict.{IsFirst};
ghost use Rattle.group_trees.specs.Forests.{IsAt, AreSingles, IsForest, IsFirstFault};

use crate::fault::ForestFault;
use crate::guesses::{Guesses, places_of};
use crate::leaves::wrong_leaf;
use crate::levels::{first_deep, first_empty};
use crate::tree::Tree;
use plan_base::{GroupPart, Op, Snapshot};
use std::alloc::Global;

/// The trees of a snapshot. Each group of the snapshot is a `SINGLE`, and each request is a leaf exactly once.
pub struct Forest<'a> {
    snapshot: &'a Snapshot,
    trees: Vec<Tree>,
    /// For each tree the places of its leaves' requests among all, in the order of its leaves.
    places: Vec<Vec<usize>>,
    ghost sound: { IsForest snapshot.now (trees_seen trees.items) },
}

impl Drop for Forest<'_> {
    fn drop(self) {
        let Self {
            snapshot: _,
            trees: _,
            places: _,
        } = self;
    }
}

impl<'a> Forest<'a> {
    ghost use Rattle.group_trees.specs.Built.{snapshot_of, trees_of};

    /// The forest of these trees. Fails with the first thing that is wrong, in the order of [`ForestFault`], and for want
    /// of memory.
    pub fn build(
        alloc: Global,
        snapshot: &'a Snapshot,
        trees: Vec<Tree>,
    ) -> Result<Forest<'a>, ForestFault>
        ensures snapshot { IfOk result (λ forest. snapshot_of forest ≡ snapshot.now) }
        ensures trees { IfOk result (λ forest. trees_of forest ≡ trees_seen trees.items) }
        ensures sound { IfOk result (λ _. IsForest snapshot.now (trees_seen trees.items)) }
        ensures fault { IfErr result (λ fault. fault ≢ NoMemory → IsFirstFault snapshot.now (trees_seen trees.items) fault) }
    {
        if let Some(fault) = snapshot_fault(snapshot) {
            return Err(fault);
        }
        if let Some(tree) = first_deep(trees.as_slice()) {
            return Err(ForestFault::TreeDeep { tree });
        }
        if let Some(tree) = first_empty(trees.as_slice()) {
            return Err(ForestFault::TreeEmpty { tree });
        }
        if let Some(request) = wrong_leaf(alloc, snapshot, &trees)? {
            return Err(ForestFault::TreeLeaf { request });
        }
        let places = places_of(alloc, snapshot, trees.as_slice())?;
        Ok(Forest {
            snapshot,
            trees,
            places,
        })
    }

    /// The snapshot that it was built for.
    pub fn snapshot(&self) -> &'a Snapshot
        ensures { result.now ≡ snapshot_of self.now }
    {
        self.snapshot
    }

    /// The trees, in their order.
    pub fn trees(&self) -> &[Tree]
        ensures { trees_seen result.now ≡ trees_of self.now }
    {
        self.trees.as_slice()
    }

    /// Where the requests of the leaves of the tree at a place are likely to stand among all.
    pub(crate) fn guesses(&self, tree: usize) -> Guesses<'_> {
        match self.places.get(tree) {
            Some(places) => Guesses::new(places.as_slice()),
            None => Guesses::new(&[]),
        }
    }

    /// Recalls, where a proof needs it, what the type keeps of the trees. It does nothing.
    pub(crate) fn recall_sound(&self)
        ensures { IsForest (snapshot_of self.now) (trees_of self.now) }
    {
        let _ = &self.trees;
    }
}

/// What of the snapshot itself keeps trees from being a forest of it.
fn snapshot_fault(snapshot: &Snapshot) -> Option<ForestFault>
    ensures { MatchOption result (AreSingles snapshot.now) (λ fault. (trees : List Node) → IsFirstFault snapshot.now trees fault) }
{
    let groups = snapshot.parts().groups.as_slice();
    if let Some(place) = first_other(groups) {
        let group = groups[place].group;
        return Some(ForestFault::NotSingle { group });
    }
    if !snapshot.parts().quotas.is_empty() {
        return Some(ForestFault::HasQuota);
    }
    None
}

/// The place of the first group that isn't a `SINGLE`.
fn first_other(groups: &[GroupPart]) -> Option<usize>
    ensures { MatchOption result (All (λ x. x.op ≡ Single) groups.now) (IsFirst (IsAt (λ x. x.op ≢ Single) groups.now)) }
{
    for (place, group) in groups.iter().enumerate() {
        if group.op != Op::Single {
            return Some(place);
        }
    }
    None
}
