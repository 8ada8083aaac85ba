// Where the requests of leaves are likely to stand among all.

use crate::tree::Tree;
use plan_base::Snapshot;
use std::alloc::{AllocError, Global};

/// The places where the requests of a tree's leaves are likely to stand among all, read from its last leaf to its first. They
/// only save time, and may be any numbers.
#[derive(Clone, Copy)]
pub(crate) struct Guesses<'a> {
    /// Those that weren't read yet.
    left: &'a [usize],
}

impl<'a> Guesses<'a> {
    pub(crate) fn new(places: &'a [usize]) -> Guesses<'a> {
        Guesses { left: places }
    }

    /// The next one, and 0 after the last.
    pub(crate) fn take(&mut self) -> usize {
        match self.left.split_last() {
            Some((place, left)) => {
                self.left = left;
                *place
            }
            None => 0,
        }
    }
}

/// For each tree the places of its leaves' requests among all, in the order of its leaves. Fails only for want of memory.
pub(crate) fn places_of(
    alloc: Global,
    snapshot: &Snapshot,
    trees: &[Tree],
) -> Result<Vec<Vec<usize>>, AllocError> {
    let mut places = Vec::with_capacity(alloc, trees.len())?;
    for tree in trees {
        let mut of_tree = Vec::new(alloc);
        list_tree(snapshot, tree, &mut of_tree)?;
        places.push(of_tree)?;
    }
    Ok(places)
}

/// Lists the places of the requests of a tree's leaves.
#[cycle(list)]
fn list_tree(snapshot: &Snapshot, tree: &Tree, places: &mut Vec<usize>) -> Result<(), AllocError> {
    match tree {
        Tree::Leaf(request) => {
            let place = snapshot.place_of(*request).unwrap_or(0);
            places.push(place).map_err(AllocError::from)
        }
        Tree::Many(children) => list_all(snapshot, children, places),
        Tree::OneOf(children) => list_all(snapshot, children, places),
        Tree::And(children) => list_all(snapshot, children, places),
    }
}

/// Lists those of trees, one after another.
#[cycle(list)]
fn list_all(
    snapshot: &Snapshot,
    trees: &Vec<Tree>,
    places: &mut Vec<usize>,
) -> Result<(), AllocError> {
    for tree in trees {
        list_tree(snapshot, tree, places)?;
    }
    Ok(())
}
