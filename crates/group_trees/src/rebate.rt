// What a tree gives at prices.

ghost use Rattle.std.specs.Prelude.{◌≡◌, ◌<◌, ◌≤ℤ◌, pos, ◌+ℤ◌, ◌⊎◌, length, All};
ghost use Rattle.plan_base.specs.Requests.{listed, place_of, IsKnown};
ghost use Rattle.plan_base.specs.Bound.{price};
ghost use Rattle.plan_base.specs.NetPrices.{IsNetInRange};
ghost use Rattle.group_trees.specs.Trees.{seen, all_seen};
ghost use Rattle.group_trees.specs.Choices.{IsTreeChoice, IsUnion, IsOfOne, IsWhole};
ghost use Rattle.group_trees.specs.Rebates.{IsGreatest, IsRebateAt};
ghost use Rattle.group_trees.specs.Pairs.{IsSome, IsPair, IsSum, AreSums, IsJoined, IsSound, AreSound};
ghost use Rattle.group_trees.specs.Built.{snapshot_of, trees_of};

use crate::forest::Forest;
use crate::guesses::Guesses;
use crate::tree::Tree;
use plan_base::{Prices, RequestNo, Snapshot, Sum, larger};

/// The greatest sums of prices over the choices of a node.
#[derive(Clone, Copy)]
struct Greatest {
    /// Over all of them.
    any: i64,
    /// Over those that aren't empty.
    some: i64,
}

/// The greatest sum of prices over all choices that the tree at a place allows: it is never negative. There is one price
/// for each request of the forest's snapshot, from -2 * 10^12 to 2 * 10^12. It takes no memory, and time for the leaves
/// of the tree.
pub fn tree_rebate(forest: &Forest<'_>, tree: usize, prices: &Prices) -> i64
    requires tree { tree < length (trees_of forest.now) }
    requires count { length prices.now.0 ≡ length (listed (snapshot_of forest.now)) }
    requires range { All IsNetInRange prices.now.0 }
    ensures { IsRebateAt (snapshot_of forest.now) prices.now.0 (trees_of forest.now) tree result }
{
    forest.recall_sound();
    let snapshot = forest.snapshot();
    snapshot.recall_valid();
    let mut guesses = forest.guesses(tree);
    any_of(sums_of(snapshot, prices, &forest.trees()[tree], &mut guesses))
}

/// The greatest sums over the choices of a tree. Children are read from the last to the first, as the guesses are.
#[cycle(rebate)]
fn sums_of(snapshot: &Snapshot, prices: &Prices, tree: &Tree, guesses: &mut Guesses<'_>) -> Greatest
    requires count { length prices.now.0 ≡ length (listed snapshot.now) }
    requires range { All IsNetInRange prices.now.0 }
    requires sound { IsSound snapshot.now (seen tree.now) }
    ensures { IsPair (IsTreeChoice (seen tree.now)) (price snapshot.now prices.now.0) result }
{
    match tree {
        Tree::Leaf(request) => beside_nothing(price_of(snapshot, prices, *request, guesses)),
        Tree::Many(children) => union_of(snapshot, prices, children, guesses),
        Tree::OneOf(children) => beside_nothing(best_child(snapshot, prices, children, guesses)),
        Tree::And(children) => beside_nothing(whole_of(snapshot, prices, children, guesses)),
    }
}

/// The greatest sums over the unions of one choice of each child.
#[cycle(rebate)]
fn union_of(
    snapshot: &Snapshot,
    prices: &Prices,
    children: &Vec<Tree>,
    guesses: &mut Guesses<'_>,
) -> Greatest
    requires count { length prices.now.0 ≡ length (listed snapshot.now) }
    requires range { All IsNetInRange prices.now.0 }
    requires sound { AreSound snapshot.now (all_seen children.now.items) }
    requires some { 0 < length children.now.items }
    ensures { IsPair (IsUnion (all_seen children.now.items)) (price snapshot.now prices.now.0) result }
{
    let last = children.len() - 1;
    let mut sum = sums_of(snapshot, prices, &children[last], guesses);
    for index in (0..last).rev() {
        sum = joined(sums_of(snapshot, prices, &children[index], guesses), sum);
    }
    sum
}

/// The greatest sum over the choices of one child that aren't empty.
#[cycle(rebate)]
fn best_child(
    snapshot: &Snapshot,
    prices: &Prices,
    children: &Vec<Tree>,
    guesses: &mut Guesses<'_>,
) -> Sum
    requires count { length prices.now.0 ≡ length (listed snapshot.now) }
    requires range { All IsNetInRange prices.now.0 }
    requires sound { AreSound snapshot.now (all_seen children.now.items) }
    requires some { 0 < length children.now.items }
    ensures { IsGreatest (IsSome (IsOfOne (all_seen children.now.items))) (price snapshot.now prices.now.0) result.value }
{
    let last = children.len() - 1;
    let mut best = some_of(sums_of(snapshot, prices, &children[last], guesses));
    for index in (0..last).rev() {
        best = better(sums_of(snapshot, prices, &children[index], guesses), best);
    }
    best
}

/// The greatest sum over the unions of one choice of each child that isn't empty.
#[cycle(rebate)]
fn whole_of(
    snapshot: &Snapshot,
    prices: &Prices,
    children: &Vec<Tree>,
    guesses: &mut Guesses<'_>,
) -> Sum
    requires count { length prices.now.0 ≡ length (listed snapshot.now) }
    requires range { All IsNetInRange prices.now.0 }
    requires sound { AreSound snapshot.now (all_seen children.now.items) }
    ensures { IsGreatest (IsWhole (all_seen children.now.items)) (price snapshot.now prices.now.0) result.value }
{
    let mut sum = Sum { value: 0 };
    for index in (0..children.len()).rev() {
        sum = added(sums_of(snapshot, prices, &children[index], guesses), sum);
    }
    sum
}

/// The price of a request, which is that of the next leaf.
fn price_of(
    snapshot: &Snapshot,
    prices: &Prices,
    request: RequestNo,
    guesses: &mut Guesses<'_>,
) -> Sum
    requires count { length prices.now.0 ≡ length (listed snapshot.now) }
    requires known { IsKnown snapshot.now request.0 }
    ensures { result.value ≡ price snapshot.now prices.now.0 request.0 }
{
    let place = place_near(snapshot, request, guesses.take());
    Sum {
        value: prices.0.as_slice()[place],
    }
}

/// The place among all of a request that is one of them. It looks by halves only where the guess is wrong.
fn place_near(snapshot: &Snapshot, request: RequestNo, guess: usize) -> usize
    requires { IsKnown snapshot.now request.0 }
    ensures value { result ≡ place_of snapshot.now request.0 }
    ensures within { result < length (listed snapshot.now) }
{
    snapshot.recall_valid();
    if guess < snapshot.request_count() && snapshot.request_at(guess).request.0 == request.0 {
        return guess;
    }
    snapshot.known_place(request)
}

fn any_of(sums: Greatest) -> i64
    ensures { result ≡ sums.any }
{
    sums.any
}

fn some_of(sums: Greatest) -> Sum
    ensures { result.value ≡ sums.some }
{
    Sum { value: sums.some }
}

/// The two sums where the empty choice stands beside those of a greatest sum.
fn beside_nothing(some: Sum) -> Greatest
    ensures some { result.some ≡ some.value }
    ensures least { pos 0 ≤ℤ result.any }
    ensures above { some.value ≤ℤ result.any }
    ensures one { (result.any ≡ pos 0) ⊎ (result.any ≡ some.value) }
{
    Greatest {
        any: larger(0, some.value),
        some: some.value,
    }
}

/// The greater of the sums over choices that aren't empty.
fn better(first: Greatest, best: Sum) -> Sum
    ensures left { first.some ≤ℤ result.value }
    ensures right { best.value ≤ℤ result.value }
    ensures one { (result.value ≡ first.some) ⊎ (result.value ≡ best.value) }
{
    Sum {
        value: larger(first.some, best.value),
    }
}

fn added(first: Greatest, rest: Sum) -> Sum
    requires first { IsSum first.some }
    requires rest { IsSum rest.value }
    ensures { result.value ≡ first.some +ℤ rest.value }
{
    Sum {
        value: first.some + rest.value,
    }
}

/// The sums over unions of two choices: of whichever, with one that isn't empty on the left, and with one on the right.
#[derive(Clone, Copy)]
struct Joint {
    any: i64,
    left: i64,
    right: i64,
}

fn joint_of(first: Greatest, rest: Greatest) -> Joint
    requires first { AreSums first }
    requires rest { AreSums rest }
    ensures any { result.any ≡ first.any +ℤ rest.any }
    ensures left { result.left ≡ first.some +ℤ rest.any }
    ensures right { result.right ≡ first.any +ℤ rest.some }
{
    Joint {
        any: first.any + rest.any,
        left: first.some + rest.any,
        right: first.any + rest.some,
    }
}

fn some_joint(joint: Joint) -> Greatest
    ensures any { result.any ≡ joint.any }
    ensures left { joint.left ≤ℤ result.some }
    ensures right { joint.right ≤ℤ result.some }
    ensures one { (result.some ≡ joint.left) ⊎ (result.some ≡ joint.right) }
{
    Greatest {
        any: joint.any,
        some: larger(joint.left, joint.right),
    }
}

/// The sums over unions of two choices.
fn joined(first: Greatest, rest: Greatest) -> Greatest
    requires first { AreSums first }
    requires rest { AreSums rest }
    ensures { IsJoined first rest result }
{
    some_joint(joint_of(first, rest))
}
