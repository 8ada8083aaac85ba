// Whether each request is a leaf exactly once, and each leaf is a request.

ghost use Rattle.std.specs.Prelude.{◌≡◌, ◌++◌, ◌∷◌, ℕ, List, [], length, All, MatchOption, IfOk, true, false};
ghost use Rattle.plan_base.specs.Requests.{listed};
ghost use Rattle.plan_base.specs.Verdict.{IsFirst};
ghost use Rattle.group_trees.specs.Trees.{seen, all_seen, trees_seen};
ghost use Rattle.group_trees.specs.Choices.{leaves, all_leaves};
ghost use Rattle.group_trees.specs.Forests.{forest_leaves, IsAt, IsWrongLeaf};
ghost use Rattle.group_trees.specs.Tallies.{lesser, IsTally};

use crate::tree::Tree;
use plan_base::{RequestNo, Snapshot, repeated};
use std::alloc::{AllocError, Global};

/// What is told of leaves while they are counted.
pub(crate) struct Tally {
    /// For each request, whether it was a leaf.
    flags: Vec<bool>,
    /// The least number that was a leaf and is no request, or was a leaf twice.
    wrong: Option<RequestNo>,
}

impl Drop for Tally {
    fn drop(self) {
        let Self { flags: _, wrong: _ } = self;
    }
}

/// The least number that is a leaf and no request, or a request that isn't a leaf exactly once. Fails only for want of
/// memory.
pub(crate) fn wrong_leaf(
    alloc: Global,
    snapshot: &Snapshot,
    trees: &Vec<Tree>,
) -> Result<Option<RequestNo>, AllocError>
    ensures { IfOk result (λ wrong. MatchOption wrong
        ((r : ℕ) → ¬ (IsWrongLeaf snapshot.now (forest_leaves (trees_seen trees.now.items)) r))
        (λ r. IsFirst (IsWrongLeaf snapshot.now (forest_leaves (trees_seen trees.now.items))) r.0)) }
{
    let flags = repeated(alloc, false, snapshot.request_count())?;
    let mut tally = Tally { flags, wrong: None };
    tally_all(snapshot, trees, &mut tally);
    Ok(least_wrong(snapshot, &tally))
}

/// The least number that is wrong once all leaves were counted.
fn least_wrong(snapshot: &Snapshot, tally: &Tally) -> Option<RequestNo>
    requires { length tally.now.flags.items ≡ length (listed snapshot.now) }
    ensures { (rs : List ℕ) → IsTally snapshot.now rs tally.now → MatchOption result
        ((r : ℕ) → ¬ (IsWrongLeaf snapshot.now rs r)) (λ r. IsFirst (IsWrongLeaf snapshot.now rs) r.0) }
{
    snapshot.recall_valid();
    match first_clear(tally.flags.as_slice()) {
        Some(place) => Some(lesser(tally.wrong, snapshot.request_at(place).request)),
        None => tally.wrong,
    }
}

/// The place of the first flag that isn't set.
fn first_clear(flags: &[bool]) -> Option<usize>
    ensures { MatchOption result (All (λ flag. flag ≡ true) flags.now) (IsFirst (IsAt (λ flag. flag ≡ false) flags.now)) }
{
    for (place, flag) in flags.iter().enumerate() {
        if !*flag {
            return Some(place);
        }
    }
    None
}

/// The lesser of two numbers, of which the first may be missing.
fn lesser(a: Option<RequestNo>, b: RequestNo) -> RequestNo
    ensures { result ≡ lesser a b }
{
    match a {
        Some(a) if a < b => a,
        _ => b,
    }
}

/// Counts the leaves of a tree.
#[cycle(tally)]
fn tally_tree(snapshot: &Snapshot, tree: &Tree, tally: &mut Tally)
    requires { length tally.old.flags.items ≡ length (listed snapshot.now) }
    ensures count { length tally.new.flags.items ≡ length (listed snapshot.now) }
    ensures tally { (rs : List ℕ) → IsTally snapshot.now rs tally.old → IsTally snapshot.now (rs ++ leaves (seen tree.now)) tally.new }
{
    match tree {
        Tree::Leaf(request) => tally_leaf(snapshot, *request, tally),
        Tree::Many(children) => tally_all(snapshot, children, tally),
        Tree::OneOf(children) => tally_all(snapshot, children, tally),
        Tree::And(children) => tally_all(snapshot, children, tally),
    }
}

/// Counts the leaves of trees.
#[cycle(tally)]
fn tally_all(snapshot: &Snapshot, trees: &Vec<Tree>, tally: &mut Tally)
    requires { length tally.old.flags.items ≡ length (listed snapshot.now) }
    ensures count { length tally.new.flags.items ≡ length (listed snapshot.now) }
    ensures tally { (rs : List ℕ) → IsTally snapshot.now rs tally.old → IsTally snapshot.now (rs ++ all_leaves (all_seen trees.now.items)) tally.new }
{
    for tree in trees {
        tally_tree(snapshot, tree, tally);
    }
}

/// Counts a leaf.
fn tally_leaf(snapshot: &Snapshot, request: RequestNo, tally: &mut Tally)
    requires { length tally.old.flags.items ≡ length (listed snapshot.now) }
    ensures count { length tally.new.flags.items ≡ length (listed snapshot.now) }
    ensures tally { (rs : List ℕ) → IsTally snapshot.now rs tally.old → IsTally snapshot.now (rs ++ request.0 ∷ []) tally.new }
{
    match snapshot.place_of(request) {
        Some(place) if !tally.flags[place] => tally.flags[place] = true,
        _ => tally.wrong = Some(lesser(tally.wrong, request)),
    }
}
