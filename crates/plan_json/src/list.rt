// Lists in documents, whose elements are read one at a time.

ghost use Rattle.std.specs.Prelude.{◌≡◌, ◌≢◌, ◌<◌, ◌^◌, length, map, IfOk, IfErr, Ok, Err};
ghost use Rattle.serde_json.specs.View.{view};
ghost use Rattle.plan_json.specs.declared.fault.JsonFault.TheVariants.{NoMemory};
ghost use Rattle.plan_json.specs.Reading.{result_map};
ghost use Rattle.plan_json.specs.Whole.{whole_in};
ghost use Rattle.plan_json.specs.Text.{text_in};
ghost use Rattle.plan_json.specs.Span.{span_in};
ghost use Rattle.plan_json.specs.List.{list_of_count_in};
ghost use Rattle.plan_json.specs.Object.{object_in};

use crate::doc::Doc;
use crate::fault::JsonFault;
use crate::member::Member;
use crate::value;
use plan_base::{Name, Span};
use serde_json::Value;
use std::alloc::Global;

/// A JSON list in a document, read in place. The faults of its elements name the member that the list was read by.
#[derive(Clone, Copy)]
pub struct DocList<'a> {
    items: &'a [Value],
    member: Member,
    ghost counted: { length items.now < 2 ^ 32 },
}

impl<'a> DocList<'a> {
    ghost use Rattle.plan_json.specs.Shown.{elements_of, element_of, named_by, members_of};

    pub(crate) fn of(items: &'a [Value], member: Member) -> DocList<'a>
        requires { length items.now < 2 ^ 32 }
        ensures value { elements_of result ≡ map view items.now }
        ensures member { named_by result ≡ member }
    {
        DocList { items, member }
    }

    /// How many elements there are.
    pub fn count(&self) -> u32
        ensures { result ≡ length (elements_of self.now) }
    {
        self.items.len() as u32
    }

    fn value(&self, index: u32) -> &'a Value
        requires { index < length (elements_of self.now) }
        ensures { view result.now ≡ element_of self.now index }
    {
        &self.items[index as usize]
    }

    /// The object at that place, read in place. Fails with [`JsonFault::WrongKind`], no object.
    pub fn object(&self, index: u32) -> Result<Doc<'a>, JsonFault>
        requires { index < length (elements_of self.now) }
        ensures { result_map members_of result ≡ object_in (named_by self.now) (element_of self.now index) }
    {
        let members = value::object_in(self.value(index), self.member)?;
        Ok(Doc::part(members))
    }

    /// The text of 1 to 128 bytes at that place. Fails with [`JsonFault::WrongKind`], no text;
    /// [`JsonFault::OutOfRange`], an empty or a longer one; and for want of memory.
    pub fn text(&self, alloc: Global, index: u32) -> Result<Name, JsonFault>
        requires { index < length (elements_of self.now) }
        ensures value { IfOk result
            (λ name. text_in (named_by self.now) (element_of self.now index) ≡ Ok name) }
        ensures fault { IfErr result
            (λ e. e ≢ NoMemory → text_in (named_by self.now) (element_of self.now index) ≡ Err e) }
    {
        value::text_in(alloc, self.value(index), self.member)
    }

    /// The whole number from `least` to `most` at that place. Fails with [`JsonFault::WrongKind`], no number;
    /// [`JsonFault::NotWhole`], as [`Doc::whole`] has it; [`JsonFault::OutOfRange`].
    pub fn whole(&self, index: u32, least: i64, most: i64) -> Result<i64, JsonFault>
        requires { index < length (elements_of self.now) }
        ensures { result ≡ whole_in (named_by self.now) least most (element_of self.now index) }
    {
        value::whole_in(self.value(index), self.member, least, most)
    }

    /// The span at that place. Fails as [`Doc::span`] does.
    pub(crate) fn span(&self, index: u32) -> Result<Span, JsonFault>
        requires { index < length (elements_of self.now) }
        ensures { result ≡ span_in (named_by self.now) (element_of self.now index) }
    {
        value::span_in(self.value(index), self.member)
    }

    /// The list at that place, if it has `count` elements, read in place. Fails with [`JsonFault::WrongKind`], no such
    /// list.
    pub fn list(&self, index: u32, count: u32) -> Result<DocList<'a>, JsonFault>
        requires { index < length (elements_of self.now) }
        ensures value { result_map elements_of result
            ≡ list_of_count_in (named_by self.now) count (element_of self.now index) }
        ensures member { IfOk result (λ list. named_by list ≡ named_by self.now) }
    {
        let items = value::elements_in(self.value(index), self.member)?;
        if items.len() == count as usize {
            Ok(DocList::of(items, self.member))
        } else {
            Err(JsonFault::WrongKind {
                member: self.member,
            })
        }
    }
}
