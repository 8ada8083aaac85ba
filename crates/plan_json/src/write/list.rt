// Lists, item by item.
#![tactic(auto, unfolding(crate::specs::Adds::text_of))]

ghost use Rattle.std.specs.Prelude.{ℕ, ◌∷◌, [], suc, max, map, true};
ghost use Rattle.serde_json.specs.Data.{Data, array, item, no_items};
ghost use Rattle.serde_json.specs.View.{items_of};
ghost use Rattle.plan_json.specs.Adds.{AddsNested, AddsItem, AddsItems};
ghost use Rattle.plan_json.specs.Values.{whole, list_of};

use crate::write::bytes::put_byte;
use crate::write::value::Json;
use plan_base::{ListOf, Span};
use std::alloc::AllocError;

/// A way to write values of a type, with what it takes besides the value: for types that don't have one JSON value, or
/// that another crate declares.
pub trait Form<T> {
    /// The value as data.
    ghost value_of: { Self → T → Data };

    /// The most levels of lists and objects, as those of [`Json`].
    ghost levels: { ℕ };

    /// Adds the text of the value at the end, as [`Json::write`] does.
    fn write_value(&self, value: &T, out: &mut Vec<u8>) -> Result<(), AllocError>
        ensures { AddsNested result out.old.items out.new.items levels (value_of self.now value.now) };
}

/// The list of all items, each in one form.
#[derive(Drop)]
pub struct Each<'a, F, T> {
    /// The form of each item.
    pub form: F,
    /// The items, in the order in which they are written.
    pub items: &'a ListOf<T>,
}

impl<'a, T: Drop, F: Form<T>> Json for Each<'a, F, T> {
    ghost value = { λ each. list_of (F.value_of each.form) each.items.now };

    ghost levels = { suc F.levels };

    #[inline]
    fn write(&self, out: &mut Vec<u8>) -> Result<(), AllocError> {
        write_list(out, &self.form, self.items.as_slice())
    }
}

/// Adds a list.
#[inline]
fn write_list<T, F: Form<T>>(out: &mut Vec<u8>, form: &F, items: &[T]) -> Result<(), AllocError>
    ensures { AddsNested result out.old.items out.new.items (suc F.levels)
        (list_of (F.value_of form.now) items.now) }
{
    put_byte(out, b'[')?;
    write_items(out, form, items)
}

/// Adds the items of a list, and the bracket that closes it.
#[inline]
fn write_items<T, F: Form<T>>(out: &mut Vec<u8>, form: &F, items: &[T]) -> Result<(), AllocError>
    ensures { AddsItems result out.old.items out.new.items F.levels
        (items_of (map (F.value_of form.now) items.now)) }
{
    let mut is_later = false;
    for item in items {
        write_item(out, is_later, form, item)?;
        is_later = true;
    }
    put_byte(out, b']')
}

/// Adds an item, after a comma if it is a later one.
#[inline]
fn write_item<T, F: Form<T>>(
    out: &mut Vec<u8>,
    is_later: bool,
    form: &F,
    item: &T,
) -> Result<(), AllocError>
    ensures { AddsItem result out.old.items out.new.items is_later F.levels
        (F.value_of form.now item.now) }
{
    if is_later {
        put_byte(out, b',')?;
    }
    form.write_value(item, out)
}

/// The form of what has a JSON value of its own.
#[derive(Drop)]
struct Own;

impl<T: Json> Form<T> for Own {
    ghost value_of = { λ _. T.value };

    ghost levels = { T.levels };

    #[inline]
    fn write_value(&self, value: &T, out: &mut Vec<u8>) -> Result<(), AllocError> {
        value.write(out)
    }
}

impl<'a, T: Json> Json for &'a [T] {
    ghost value = { λ xs. list_of T.value xs.now };

    ghost levels = { suc T.levels };

    #[inline]
    fn write(&self, out: &mut Vec<u8>) -> Result<(), AllocError> {
        write_list(out, &Own, *self)
    }
}

impl<T: Json + Drop> Json for ListOf<T> {
    ghost value = { list_of T.value };

    ghost levels = { suc T.levels };

    #[inline]
    fn write(&self, out: &mut Vec<u8>) -> Result<(), AllocError> {
        self.as_slice().write(out)
    }
}

/// Adds a comma and an item, where another stands before it.
#[inline]
fn write_later<T: Json>(out: &mut Vec<u8>, item: &T) -> Result<(), AllocError>
    ensures { AddsItem result out.old.items out.new.items true T.levels (T.value item.now) }
{
    put_byte(out, b',')?;
    item.write(out)
}

/// A pair is written as a list of two.
impl<A: Json, B: Json> Json for (A, B) {
    ghost value = { λ pair. array (item (A.value pair.0) (item (B.value pair.1) no_items)) };

    ghost levels = { suc (max A.levels B.levels) };

    #[inline]
    fn write(&self, out: &mut Vec<u8>) -> Result<(), AllocError> {
        put_byte(out, b'[')?;
        self.0.write(out)?;
        write_later(out, &self.1)?;
        put_byte(out, b']')
    }
}

/// A triple is written as a list of three.
impl<A: Json, B: Json, C: Json> Json for (A, B, C) {
    ghost value = { λ triple. array (item (A.value triple.0) (item (B.value triple.1)
        (item (C.value triple.2) no_items))) };

    ghost levels = { suc (max A.levels (max B.levels C.levels)) };

    #[inline]
    fn write(&self, out: &mut Vec<u8>) -> Result<(), AllocError> {
        put_byte(out, b'[')?;
        self.0.write(out)?;
        write_later(out, &self.1)?;
        write_later(out, &self.2)?;
        put_byte(out, b']')
    }
}

/// A span is written as the list of its two moments.
impl Json for Span {
    ghost value = { λ span. list_of whole (span.from.0 ∷ span.to.0 ∷ []) };

    ghost levels = { 1 };

    #[inline]
    fn write(&self, out: &mut Vec<u8>) -> Result<(), AllocError> {
        (self.from, self.to).write(out)
    }
}
