// Documents: JSON objects, whose members are read one at a time.

ghost use Rattle.std.specs.Prelude.{◌≡◌, ◌≢◌, ◌<◌, ◌≤◌, length, is_some, option_map, ok_or, IfOk, IfErr, IfSome, Ok, Err};
ghost use Rattle.serde_json.specs.Find.{get_member};
ghost use Rattle.serde_json.specs.View.{view, members_view};
ghost use Rattle.plan_json.specs.declared.fault.JsonFault.TheVariants.{NoMemory, Missing};
ghost use Rattle.plan_json.specs.Member.{name_of};
ghost use Rattle.plan_json.specs.Reading.{result_map};
ghost use Rattle.plan_json.specs.Whole.{whole_in, number_in};
ghost use Rattle.plan_json.specs.Text.{text_in};
ghost use Rattle.plan_json.specs.Moment.{moment_in};
ghost use Rattle.plan_json.specs.Operator.{operator_in};
ghost use Rattle.plan_json.specs.List.{list_in};
ghost use Rattle.plan_json.specs.Span.{span_in, spans_of};
ghost use Rattle.plan_json.specs.Object.{data_of, document_of, value_of, member_of, if_there, or_default, object_in};
ghost use Rattle.plan_json.specs.Shown.{members_of, elements_of, named_by};

use crate::element::{Spans, read_list};
use crate::fault::JsonFault;
use crate::list::DocList;
use crate::member::Member;
use crate::{operator, value};
use plan_base::{ListOf, MOST_SPANS, Name, Op, Sec, Span};
use serde_json::{Map, Value};
use std::alloc::Global;

/// A JSON object: a whole document, which owns what was read, or an object inside one, read in place. A member with
/// the value `null` counts as absent; where a name stands twice in the text, its last value is read.
pub struct Doc<'a> {
    object: Object<'a>,
}

impl Drop for Doc<'_> {
    fn drop(self) {
        let Self { object: _ } = self;
    }
}

#[derive(Drop)]
enum Object<'a> {
    Whole(Map<String, Value>),
    Part(&'a Map<String, Value>),
}

/// What the bytes are as JSON.
fn read(alloc: Global, bytes: &[u8]) -> Result<Value, JsonFault>
    ensures value { IfOk result (λ v. data_of bytes.now ≡ Ok (view v)) }
    ensures fault { IfErr result (λ e. e ≢ NoMemory → data_of bytes.now ≡ Err e) }
    ensures memory { result ≡ Err NoMemory → 0 < length bytes.now }
{
    match Value::from_slice(alloc, bytes) {
        Ok(value) => Ok(value),
        Err(error) if error.is_memory() => Err(JsonFault::NoMemory),
        Err(_) => Err(JsonFault::NotJson),
    }
}

/// The object that the bytes are. Fails with [`JsonFault::NotJson`] where they aren't the UTF-8 of one JSON text as the
/// crate `serde_json` reads it, with at most 127 levels and no number that is too great for a float; with
/// [`JsonFault::NotObject`] where the text isn't an object; and for want of memory, but not where there are no bytes.
pub fn parse_object(alloc: Global, bytes: &[u8]) -> Result<Doc<'static>, JsonFault>
    ensures value { IfOk result (λ doc. document_of bytes.now ≡ Ok (members_of doc)) }
    ensures fault { IfErr result (λ e. e ≢ NoMemory → document_of bytes.now ≡ Err e) }
    ensures memory { result ≡ Err NoMemory → 0 < length bytes.now }
{
    match read(alloc, bytes)? {
        Value::Object(members) => Ok(Doc {
            object: Object::Whole(members),
        }),
        _other => Err(JsonFault::NotObject),
    }
}

impl<'a> Doc<'a> {
    /// An object inside a document.
    pub(crate) fn part(members: &'a Map<String, Value>) -> Doc<'a>
        ensures { members_of result ≡ members_view members.now.entries }
    {
        Doc {
            object: Object::Part(members),
        }
    }

    fn members(&self) -> &Map<String, Value>
        ensures { members_view result.now.entries ≡ members_of self.now }
    {
        match &self.object {
            Object::Whole(members) => members,
            Object::Part(members) => members,
        }
    }

    fn found(&self, member: Member) -> Option<&Value>
        ensures { option_map (λ v. view v.now) result
            ≡ get_member (name_of member) (members_of self.now) }
    {
        self.members().get(member.name())
    }

    /// The member's value, where it is there and isn't `null`.
    fn value(&self, member: Member) -> Option<&Value>
        ensures { option_map (λ v. view v.now) result ≡ value_of (members_of self.now) member }
    {
        match self.found(member) {
            Some(value) if !value.is_null() => Some(value),
            _ => None,
        }
    }

    /// The member's value.
    fn required(&self, member: Member) -> Result<&Value, JsonFault>
        ensures { result_map (λ v. view v.now) result
            ≡ ok_or (value_of (members_of self.now) member) (Missing member) }
    {
        self.value(member).ok_or(JsonFault::Missing { member })
    }

    /// Whether the member is there and isn't `null`.
    pub fn has(&self, member: Member) -> bool
        ensures { result ≡ is_some (value_of (members_of self.now) member) }
    {
        self.value(member).is_some()
    }

    /// The whole number from `least` to `most`. Fails with [`JsonFault::Missing`]; [`JsonFault::WrongKind`], no number;
    /// [`JsonFault::NotWhole`], a number with a fraction or an exponent, `-0`, or one beyond 64 bits;
    /// [`JsonFault::OutOfRange`].
    pub fn whole(&self, member: Member, least: i64, most: i64) -> Result<i64, JsonFault>
        ensures { result ≡ member_of (λ m. whole_in m least most) (members_of self.now) member }
    {
        value::whole_in(self.required(member)?, member, least, most)
    }

    /// The number from `least` to `most`, with the faults of [`Doc::whole`].
    pub fn number(&self, member: Member, least: u32, most: u32) -> Result<u32, JsonFault>
        ensures value { result ≡ member_of (number_in least most) (members_of self.now) member }
        ensures small { IfOk result (λ number. number ≤ most) }
    {
        value::number_in(self.required(member)?, member, least, most)
    }

    /// The number from `least` to `most`, or the default where the member isn't there. Fails as [`Doc::whole`], but not
    /// with [`JsonFault::Missing`].
    pub fn number_or(
        &self,
        member: Member,
        least: u32,
        most: u32,
        default: u32,
    ) -> Result<u32, JsonFault>
        requires { default ≤ most }
        ensures value { result
            ≡ or_default default (number_in least most) (members_of self.now) member }
        ensures small { IfOk result (λ number. number ≤ most) }
    {
        match self.value(member) {
            Some(value) => value::number_in(value, member, least, most),
            None => Ok(default),
        }
    }

    /// The number from `least` to `most`, where the member is there. Fails as [`Doc::whole`], but not with
    /// [`JsonFault::Missing`].
    pub fn optional_number(
        &self,
        member: Member,
        least: u32,
        most: u32,
    ) -> Result<Option<u32>, JsonFault>
        ensures value { result ≡ if_there (number_in least most) (members_of self.now) member }
        ensures small { IfOk result (λ found. IfSome found (λ number. number ≤ most)) }
    {
        match self.value(member) {
            Some(value) => Ok(Some(value::number_in(value, member, least, most)?)),
            None => Ok(None),
        }
    }

    /// The text of 1 to 128 bytes, read in place. Fails with [`JsonFault::Missing`]; [`JsonFault::WrongKind`], no text;
    /// [`JsonFault::OutOfRange`], an empty or a longer one.
    pub fn word(&self, member: Member) -> Result<&str, JsonFault>
        ensures { result_map (λ word. word.now) result
            ≡ member_of text_in (members_of self.now) member }
    {
        value::word_in(self.required(member)?, member)
    }

    /// The text of 1 to 128 bytes. Fails as [`Doc::word`], and for want of memory.
    pub fn text(&self, alloc: Global, member: Member) -> Result<Name, JsonFault>
        ensures value { IfOk result (λ name. member_of text_in (members_of self.now) member ≡ Ok name) }
        ensures fault { IfErr result
            (λ e. e ≢ NoMemory → member_of text_in (members_of self.now) member ≡ Err e) }
    {
        value::text_in(alloc, self.required(member)?, member)
    }

    /// The text of 1 to 128 bytes, where the member is there. Fails as [`Doc::text`], but not with
    /// [`JsonFault::Missing`].
    pub fn optional_text(&self, alloc: Global, member: Member) -> Result<Option<Name>, JsonFault>
        ensures value { IfOk result
            (λ name. if_there text_in (members_of self.now) member ≡ Ok name) }
        ensures fault { IfErr result
            (λ e. e ≢ NoMemory → if_there text_in (members_of self.now) member ≡ Err e) }
    {
        match self.value(member) {
            Some(value) => Ok(Some(value::text_in(alloc, value, member)?)),
            None => Ok(None),
        }
    }

    /// How the requests of a group belong together: `SINGLE`, `MANY`, `ONEOF` or `AND`. Fails with
    /// [`JsonFault::Missing`]; [`JsonFault::WrongKind`], no text; [`JsonFault::OutOfRange`], another text.
    pub fn operator(&self, member: Member) -> Result<Op, JsonFault>
        ensures { result ≡ member_of operator_in (members_of self.now) member }
    {
        operator::operator_in(self.required(member)?, member)
    }

    /// The moment: a whole number of seconds since 1970-01-01T00:00:00Z, up to 253,402,300,799, or a text of
    /// `YYYY-MM-DD`, one `T` or space, `HH:MM:SS`, then nothing or a point with 1 to 9 zeros, then nothing, `Z` or
    /// `+00:00`. It is always UTC. Fails with [`JsonFault::Missing`]; [`JsonFault::WrongKind`], no number and no text;
    /// [`JsonFault::NotWhole`]; [`JsonFault::OutOfRange`], another whole number; [`JsonFault::BadMoment`], a text of
    /// another form, or one with a day that the Gregorian calendar doesn't have, an hour above 23, a minute or second
    /// above 59, or a year before 1970.
    pub fn moment(&self, member: Member) -> Result<Sec, JsonFault>
        ensures { result ≡ member_of moment_in (members_of self.now) member }
    {
        value::moment_in(self.required(member)?, member)
    }

    /// The span: a list of two moments, of which the first comes before the second. Fails with
    /// [`JsonFault::Missing`]; [`JsonFault::WrongKind`], no list of two; then the faults of the first moment and of the
    /// second, as [`Doc::moment`] has them; [`JsonFault::OutOfRange`], the first isn't before the second.
    pub fn span(&self, member: Member) -> Result<Span, JsonFault>
        ensures { result ≡ member_of span_in (members_of self.now) member }
    {
        value::span_in(self.required(member)?, member)
    }

    /// The spans: a list of at most 512. Fails with [`JsonFault::Missing`]; [`JsonFault::WrongKind`], no list;
    /// [`JsonFault::OutOfRange`], too many; then the first fault of a span, as [`Doc::span`] has them; and for want of
    /// memory.
    pub fn spans(&self, alloc: Global, member: Member) -> Result<ListOf<Span>, JsonFault>
        ensures value { IfOk result
            (λ spans. spans_of (members_of self.now) member ≡ Ok spans) }
        ensures fault { IfErr result
            (λ e. e ≢ NoMemory → spans_of (members_of self.now) member ≡ Err e) }
    {
        read_list(alloc, &Spans, self, member, 0, MOST_SPANS)
    }

    /// The list of `least` to `most` elements, read in place. Fails with [`JsonFault::Missing`];
    /// [`JsonFault::WrongKind`], no list; [`JsonFault::OutOfRange`], fewer or more elements.
    pub fn list(&self, member: Member, least: u32, most: u32) -> Result<DocList<'_>, JsonFault>
        ensures value { result_map elements_of result
            ≡ member_of (λ m. list_in m least most) (members_of self.now) member }
        ensures member { IfOk result (λ list. named_by list ≡ member) }
    {
        let items = value::counted(self.required(member)?, member, least, most)?;
        Ok(DocList::of(items, member))
    }

    /// The object, read in place. Fails with [`JsonFault::Missing`]; [`JsonFault::WrongKind`], no object.
    pub fn object(&self, member: Member) -> Result<Doc<'_>, JsonFault>
        ensures { result_map members_of result ≡ member_of object_in (members_of self.now) member }
    {
        let members = value::object_in(self.required(member)?, member)?;
        Ok(Doc::part(members))
    }
}
