// Lists of documents whose elements are all read alike.

ghost use Rattle.std.specs.Prelude.{◌≡◌, ◌≢◌, ◌<◌, length, Result, IfOk, IfErr, Ok, Err};
ghost use Rattle.serde_json.specs.Data.{Data};
ghost use Rattle.plan_json.specs.declared.member.Member.{Member as Key};
ghost use Rattle.plan_json.specs.declared.fault.JsonFault.{JsonFault as Fault};
ghost use Rattle.plan_json.specs.declared.fault.JsonFault.TheVariants.{NoMemory};
ghost use Rattle.plan_json.specs.Elements.{each_of};
ghost use Rattle.plan_json.specs.Reading.{read_each};
ghost use Rattle.plan_json.specs.Shown.{members_of, elements_of, element_of, named_by};
ghost use Rattle.plan_json.specs.Span.{span_in};

use crate::doc::Doc;
use crate::fault::JsonFault;
use crate::list::DocList;
use crate::member::Member;
use plan_base::{ListOf, Span};
use std::alloc::Global;

/// A way to read the elements of a list of a document.
pub trait Element<T> {
    /// What a value is read as, its faults naming a member.
    ghost element_in: { Key → Data → Result T Fault };

    /// The element at that place. Fails where it can't be read so, or for want of memory.
    fn read(&self, alloc: Global, list: &DocList, index: u32) -> Result<T, JsonFault>
        requires { index < length (elements_of list.now) }
        ensures value { IfOk result (λ x. element_in (named_by list.now) (element_of list.now index) ≡ Ok x) }
        ensures fault { IfErr result
            (λ e. e ≢ NoMemory → element_in (named_by list.now) (element_of list.now index) ≡ Err e) };
}

/// What all elements are read as.
fn read_each<T: Drop, E: Element<T>>(
    alloc: Global,
    element: &E,
    list: &DocList,
) -> Result<ListOf<T>, JsonFault>
    ensures value { IfOk result
        (λ all. read_each (E.element_in (named_by list.now)) (elements_of list.now) ≡ Ok all) }
    ensures fault { IfErr result
        (λ e. e ≢ NoMemory → read_each (E.element_in (named_by list.now)) (elements_of list.now) ≡ Err e) }
{
    let mut all = Vec::with_capacity(alloc, list.count() as usize)?;
    for index in 0..list.count() {
        all.push(element.read(alloc, list, index)?)?;
    }
    Ok(ListOf::from_vec(all))
}

/// Spans.
pub(crate) struct Spans;

impl Element<Span> for Spans {
    ghost element_in = { span_in };

    fn read(&self, _alloc: Global, list: &DocList, index: u32) -> Result<Span, JsonFault> {
        list.span(index)
    }
}

/// The list of `least` to `most` elements that the member is, each read alike. Fails as [`Doc::list`] does, then as the
/// first element that can't be read, its faults naming the member; or for want of memory.
pub fn read_list<T: Drop, E: Element<T>>(
    alloc: Global,
    element: &E,
    doc: &Doc,
    member: Member,
    least: u32,
    most: u32,
) -> Result<ListOf<T>, JsonFault>
    ensures value { IfOk result
        (λ all. each_of E.element_in least most (members_of doc.now) member ≡ Ok all) }
    ensures fault { IfErr result
        (λ e. e ≢ NoMemory → each_of E.element_in least most (members_of doc.now) member ≡ Err e) }
{
    let list = doc.list(member, least, most)?;
    read_each(alloc, element, &list)
}
