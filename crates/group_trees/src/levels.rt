// How deep trees are, and whether each node has children.

ghost use Rattle.std.specs.Prelude.{◌≡◌, ◌≤◌, ◌<◌, ◌&&◌, nat_le, true, false, All, MatchOption};
ghost use Rattle.plan_base.specs.Verdict.{IsFirst};
ghost use Rattle.group_trees.specs.Forests.{most_tree_levels, IsAt};
ghost use Rattle.group_trees.specs.Trees.{seen, trees_seen, all_seen, levels, most_levels, is_full, has_child, are_full};

use crate::tree::Tree;

/// The most levels of a tree.
const MOST_LEVELS: u32 = 16;

/// Whether a tree has at most so many levels. It goes no deeper than that.
#[cycle(levels)]
pub(crate) fn is_within(tree: &Tree, most: u32) -> bool
    ensures { result ≡ nat_le (levels (seen tree.now)) most }
{
    if most == 0 {
        return false;
    }
    match tree {
        Tree::Leaf(_) => true,
        Tree::Many(children) => are_within(children, most - 1),
        Tree::OneOf(children) => are_within(children, most - 1),
        Tree::And(children) => are_within(children, most - 1),
    }
}

/// Whether all of the trees have at most so many levels.
#[cycle(levels)]
fn are_within(trees: &Vec<Tree>, most: u32) -> bool
    ensures { result ≡ nat_le (most_levels (all_seen trees.now.items)) most }
{
    for tree in trees {
        if !is_within(tree, most) {
            return false;
        }
    }
    true
}

/// Whether each node of a tree has children.
#[cycle(full)]
pub(crate) fn is_full(tree: &Tree) -> bool
    ensures { result ≡ is_full (seen tree.now) }
{
    match tree {
        Tree::Leaf(_) => true,
        Tree::Many(children) => has_full(children),
        Tree::OneOf(children) => has_full(children),
        Tree::And(children) => has_full(children),
    }
}

/// Whether there are children, and each node of them has children.
#[cycle(full)]
fn has_full(children: &Vec<Tree>) -> bool
    ensures { result ≡ (has_child (all_seen children.now.items) && are_full (all_seen children.now.items)) }
{
    if children.is_empty() {
        return false;
    }
    are_full(children)
}

/// Whether each node of all of the trees has children.
#[cycle(full)]
fn are_full(trees: &Vec<Tree>) -> bool
    ensures { result ≡ are_full (all_seen trees.now.items) }
{
    for tree in trees {
        if !is_full(tree) {
            return false;
        }
    }
    true
}

/// The place of the first tree of more than 16 levels.
pub(crate) fn first_deep(trees: &[Tree]) -> Option<usize>
    ensures { MatchOption result (All (λ t. levels t ≤ most_tree_levels) (trees_seen trees.now))
        (IsFirst (IsAt (λ t. most_tree_levels < levels t) (trees_seen trees.now))) }
{
    for (index, tree) in trees.iter().enumerate() {
        if !is_within(tree, MOST_LEVELS) {
            return Some(index);
        }
    }
    None
}

/// The place of the first tree with a node that has no children.
pub(crate) fn first_empty(trees: &[Tree]) -> Option<usize>
    ensures { MatchOption result (All (λ t. is_full t ≡ true) (trees_seen trees.now))
        (IsFirst (IsAt (λ t. is_full t ≡ false) (trees_seen trees.now))) }
{
    for (index, tree) in trees.iter().enumerate() {
        if !is_full(tree) {
            return Some(index);
        }
    }
    None
}
