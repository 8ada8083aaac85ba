// Which trees allow what a plan places of them.

ghost use Rattle.std.specs.Prelude.{◌≡◌, ◌==◌, ◌&&◌, ◌||◌, nat_le, nat_lt, length, All, MatchOption, IfOk, List};
ghost use Rattle.plan_base.specs.declared.claim.Placement.{Placement};
ghost use Rattle.plan_base.specs.Requests.{listed, IsKnown};
ghost use Rattle.plan_base.specs.Feasible.{requests_of};
ghost use Rattle.plan_base.specs.Verdict.{IsFirst};
ghost use Rattle.bound_checker.specs.Claims.{IsEachKnown};
ghost use Rattle.group_trees.specs.Trees.{seen, all_seen};
ghost use Rattle.group_trees.specs.Choices.{leaves, all_leaves};
ghost use Rattle.group_trees.specs.Forests.{IsAt};
ghost use Rattle.group_trees.specs.Plans.{IsAllowed};
ghost use Rattle.group_trees.specs.Standings.{is_touched, touched_count, keeps, all_keep, is_flagged, AreFlags};
ghost use Rattle.group_trees.specs.Built.{snapshot_of, trees_of};

use crate::forest::Forest;
use crate::tree::Tree;
use plan_base::{Placement, Snapshot, repeated};
use std::alloc::{AllocError, Global};

/// What is placed of a tree.
#[derive(Clone, Copy)]
struct Standing {
    /// The tree allows it.
    kept: bool,
    /// It is something.
    touched: bool,
}

/// What is placed of trees.
#[derive(Clone, Copy)]
struct Standings {
    /// Each tree allows what is placed of it.
    kept: bool,
    /// Of how many of them something is placed.
    touched: usize,
}

/// The place of the first tree that doesn't allow what a plan of the snapshot's requests places of it. Fails only for
/// want of memory.
pub(crate) fn first_not_allowed(
    alloc: Global,
    forest: &Forest<'_>,
    plan: &[Placement],
) -> Result<Option<usize>, AllocError>
    requires { IsEachKnown (snapshot_of forest.now) plan.now }
    ensures { IfOk result (λ first. MatchOption first (All (IsAllowed plan.now) (trees_of forest.now))
        (IsFirst (IsAt (λ t. ¬ (IsAllowed plan.now t)) (trees_of forest.now)))) }
{
    let flags = placed_flags(alloc, forest.snapshot(), plan)?;
    Ok(first_broken(forest, flags.as_slice()))
}

/// The place of the first tree that doesn't allow what is placed.
fn first_broken(forest: &Forest<'_>, flags: &[bool]) -> Option<usize>
    requires { length flags.now ≡ length (listed (snapshot_of forest.now)) }
    ensures { (plan : List Placement) → AreFlags (snapshot_of forest.now) (requests_of plan) flags.now
        → MatchOption result (All (IsAllowed plan) (trees_of forest.now))
        (IsFirst (IsAt (λ t. ¬ (IsAllowed plan t)) (trees_of forest.now))) }
{
    forest.recall_sound();
    for (index, tree) in forest.trees().iter().enumerate() {
        if !placed_of(forest.snapshot(), flags, tree).kept {
            return Some(index);
        }
    }
    None
}

/// A flag for each request, set where the plan places it. Fails only for want of memory.
fn placed_flags(
    alloc: Global,
    snapshot: &Snapshot,
    plan: &[Placement],
) -> Result<Vec<bool>, AllocError>
    requires { IsEachKnown snapshot.now plan.now }
    ensures { IfOk result (λ flags. AreFlags snapshot.now (requests_of plan.now) flags.items) }
{
    let mut flags = repeated(alloc, false, snapshot.request_count())?;
    for placement in plan {
        let place = snapshot.known_place(placement.request);
        flags[place] = true;
    }
    Ok(flags)
}

/// What is placed of a tree, where the flags tell which of its requests are.
#[cycle(standing)]
fn placed_of(snapshot: &Snapshot, flags: &[bool], tree: &Tree) -> Standing
    requires known { All (IsKnown snapshot.now) (leaves (seen tree.now)) }
    requires flags { length flags.now ≡ length (listed snapshot.now) }
    ensures kept { result.kept ≡ keeps (is_flagged snapshot.now flags.now) (seen tree.now) }
    ensures touched { result.touched ≡ is_touched (is_flagged snapshot.now flags.now) (seen tree.now) }
{
    match tree {
        Tree::Leaf(request) => Standing {
            kept: true,
            touched: flags[snapshot.known_place(*request)],
        },
        Tree::Many(children) => of_many(placed_of_all(snapshot, flags, children)),
        Tree::OneOf(children) => of_one(placed_of_all(snapshot, flags, children)),
        Tree::And(children) => of_all(placed_of_all(snapshot, flags, children), children.len()),
    }
}

fn of_many(children: Standings) -> Standing
    ensures kept { result.kept ≡ children.kept }
    ensures touched { result.touched ≡ nat_lt 0 children.touched }
{
    Standing {
        kept: children.kept,
        touched: children.touched > 0,
    }
}

fn of_one(children: Standings) -> Standing
    ensures kept { result.kept ≡ (children.kept && nat_le children.touched 1) }
    ensures touched { result.touched ≡ nat_lt 0 children.touched }
{
    Standing {
        kept: children.kept && children.touched <= 1,
        touched: children.touched > 0,
    }
}

fn of_all(children: Standings, count: usize) -> Standing
    ensures kept { result.kept ≡ (children.kept && ((children.touched == 0) || (children.touched == count))) }
    ensures touched { result.touched ≡ nat_lt 0 children.touched }
{
    Standing {
        kept: children.kept && (children.touched == 0 || children.touched == count),
        touched: children.touched > 0,
    }
}

/// What is placed of trees.
#[cycle(standing)]
fn placed_of_all(snapshot: &Snapshot, flags: &[bool], trees: &Vec<Tree>) -> Standings
    requires known { All (IsKnown snapshot.now) (all_leaves (all_seen trees.now.items)) }
    requires flags { length flags.now ≡ length (listed snapshot.now) }
    ensures kept { result.kept ≡ all_keep (is_flagged snapshot.now flags.now) (all_seen trees.now.items) }
    ensures touched { result.touched ≡ touched_count (is_flagged snapshot.now flags.now) (all_seen trees.now.items) }
{
    let mut all = Standings {
        kept: true,
        touched: 0,
    };
    for tree in trees {
        let one = placed_of(snapshot, flags, tree);
        all.kept = all.kept && one.kept;
        all.touched += usize::from(one.touched);
    }
    all
}
