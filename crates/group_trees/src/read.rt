// Trees of documents.

ghost use Rattle.std.specs.Prelude.{◌≡◌, ◌≢◌, ◌<◌, length, IfOk, IfErr, Ok, Err};
ghost use Rattle.plan_json.specs.declared.fault.JsonFault.TheVariants.{NoMemory};
ghost use Rattle.plan_json.specs.Reading.{result_and_then, read_each};
ghost use Rattle.plan_json.specs.declared.member.Member.TheVariants as key;
ghost use Rattle.plan_json.specs.Object.{object_in};
ghost use Rattle.plan_json.specs.Elements.{each_of};
ghost use Rattle.plan_json.specs.Shown.{members_of, elements_of, element_of, named_by};
ghost use Rattle.group_trees.specs.Trees.{seen, trees_seen};
ghost use Rattle.group_trees.specs.Reading.{tree_in, tree_listed, trees_given, most_children};

use crate::branch::{grown, read_branch};
use crate::tree::Tree;
use plan_base::RequestNo;
use plan_json::{Doc, DocList, JsonFault, Member};
use std::alloc::Global;

/// The most children of a node that is read.
const MOST_CHILDREN: u32 = 32;

/// The most trees of a document.
const MOST_TREES: u32 = 1_024;

/// The tree that an object is.
#[cycle(read)]
fn read_tree(alloc: Global, doc: &Doc) -> Result<Tree, JsonFault>
    ensures value { IfOk result (λ t. tree_listed (members_of doc.now) ≡ Ok (seen t)) }
    ensures fault { IfErr result (λ e. e ≢ NoMemory → tree_listed (members_of doc.now) ≡ Err e) }
{
    if doc.has(Member::Leaf) {
        let request = doc.number(Member::Leaf, 0, u32::MAX)?;
        return Ok(Tree::Leaf(RequestNo(request)));
    }
    let branch = read_branch(doc)?;
    let children = read_children(alloc, doc)?;
    Ok(grown(branch, children))
}

/// The trees that the member `children` is.
#[cycle(read)]
fn read_children(alloc: Global, doc: &Doc) -> Result<Vec<Tree>, JsonFault>
    ensures value { IfOk result (λ ts. each_of tree_in 0 most_children (members_of doc.now) key.Children ≡ Ok (trees_seen ts.items)) }
    ensures fault { IfErr result (λ e. e ≢ NoMemory → each_of tree_in 0 most_children (members_of doc.now) key.Children ≡ Err e) }
{
    let children = doc.list(Member::Children, 0, MOST_CHILDREN)?;
    read_all(alloc, &children)
}

/// The trees that the elements of a list are.
#[cycle(read)]
fn read_all(alloc: Global, list: &DocList) -> Result<Vec<Tree>, JsonFault>
    ensures value { IfOk result (λ ts. read_each (tree_in (named_by list.now)) (elements_of list.now) ≡ Ok (trees_seen ts.items)) }
    ensures fault { IfErr result (λ e. e ≢ NoMemory → read_each (tree_in (named_by list.now)) (elements_of list.now) ≡ Err e) }
{
    let mut trees = Vec::with_capacity(alloc, list.count() as usize)?;
    for index in 0..list.count() {
        trees.push(read_element(alloc, list, index)?)?;
    }
    Ok(trees)
}

/// The tree that the element at that place is.
#[cycle(read)]
fn read_element(alloc: Global, list: &DocList, index: u32) -> Result<Tree, JsonFault>
    requires { index < length (elements_of list.now) }
    ensures value { IfOk result (λ t. tree_in (named_by list.now) (element_of list.now index) ≡ Ok (seen t)) }
    ensures fault { IfErr result (λ e. e ≢ NoMemory → tree_in (named_by list.now) (element_of list.now index) ≡ Err e) }
{
    read_object(alloc, list, index)
}

/// The tree that the object at that place is.
#[cycle(read)]
fn read_object(alloc: Global, list: &DocList, index: u32) -> Result<Tree, JsonFault>
    requires { index < length (elements_of list.now) }
    ensures value { IfOk result (λ t. result_and_then tree_listed (object_in (named_by list.now) (element_of list.now index)) ≡ Ok (seen t)) }
    ensures fault { IfErr result (λ e. e ≢ NoMemory → result_and_then tree_listed (object_in (named_by list.now) (element_of list.now index)) ≡ Err e) }
{
    let object = list.object(index)?;
    read_tree(alloc, &object)
}

/// The trees that the member `trees` is.
pub(crate) fn read_trees(alloc: Global, doc: &Doc) -> Result<Vec<Tree>, JsonFault>
    ensures value { IfOk result (λ ts. trees_given (members_of doc.now) ≡ Ok (trees_seen ts.items)) }
    ensures fault { IfErr result (λ e. e ≢ NoMemory → trees_given (members_of doc.now) ≡ Err e) }
{
    read_all(alloc, &doc.list(Member::Trees, 0, MOST_TREES)?)
}
