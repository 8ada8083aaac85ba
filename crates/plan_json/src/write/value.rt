// What has a JSON value.
#![tactic(auto, unfolding(crate::specs::Adds::text_of))]

ghost use Rattle.std.specs.Prelude.{◌≡◌, ℕ, IsTrue, option_map, unwrap_or};
ghost use Rattle.serde_json.specs.Data.{Data, null, boolean, string};
ghost use Rattle.plan_json.specs.Adds.{AddsNested};
ghost use Rattle.plan_json.specs.Literals.{word_in, is_word};
ghost use Rattle.plan_json.specs.Member.{name_of};
ghost use Rattle.plan_json.specs.Values.{whole, integer, above_0};

use crate::member::Member;
use crate::write::bytes::{put, put_number, put_signed};
use crate::write::quoted::put_quoted;
use plan_base::{Name, RequestNo, Sec, TargetNo, TelescopeNo};
use std::alloc::AllocError;

/// What is written as a JSON value. A type implements it by the value as data, and by how deep its lists and objects
/// nest; `write` is then mostly one call on an [`object!`](crate::object) or a list.
pub trait Json {
    /// The value.
    ghost value: { Self → Data };

    /// The most levels of lists and objects: 0 for a number, 1 for a list of numbers.
    ghost levels: { ℕ };

    /// Adds the value's compact text at the end. Fails only for want of memory, and then leaves what was there, perhaps
    /// with a part of the text after it.
    fn write(&self, out: &mut Vec<u8>) -> Result<(), AllocError>
        ensures { AddsNested result out.old.items out.new.items levels (value self.now) };
}

impl Json for u8 {
    ghost value = { whole };

    ghost levels = { 0 };

    #[inline]
    fn write(&self, out: &mut Vec<u8>) -> Result<(), AllocError> {
        put_number(out, u64::from(*self))
    }
}

impl Json for u16 {
    ghost value = { whole };

    ghost levels = { 0 };

    #[inline]
    fn write(&self, out: &mut Vec<u8>) -> Result<(), AllocError> {
        put_number(out, u64::from(*self))
    }
}

impl Json for u32 {
    ghost value = { whole };

    ghost levels = { 0 };

    #[inline]
    fn write(&self, out: &mut Vec<u8>) -> Result<(), AllocError> {
        put_number(out, u64::from(*self))
    }
}

impl Json for u64 {
    ghost value = { whole };

    ghost levels = { 0 };

    #[inline]
    fn write(&self, out: &mut Vec<u8>) -> Result<(), AllocError> {
        put_number(out, *self)
    }
}

impl Json for i64 {
    ghost value = { integer };

    ghost levels = { 0 };

    #[inline]
    fn write(&self, out: &mut Vec<u8>) -> Result<(), AllocError> {
        put_signed(out, *self)
    }
}

impl Json for bool {
    ghost value = { boolean };

    ghost levels = { 0 };

    #[inline]
    fn write(&self, out: &mut Vec<u8>) -> Result<(), AllocError> {
        if *self {
            put(out, b"true")
        } else {
            put(out, b"false")
        }
    }
}

impl<'a> Json for &'a str {
    ghost value = { λ s. string s.now };

    ghost levels = { 0 };

    #[inline]
    fn write(&self, out: &mut Vec<u8>) -> Result<(), AllocError> {
        put_quoted(out, *self)
    }
}

impl Json for Name {
    ghost value = { string };

    ghost levels = { 0 };

    #[inline]
    fn write(&self, out: &mut Vec<u8>) -> Result<(), AllocError> {
        put_quoted(out, self.text())
    }
}

/// A moment is written as its seconds since 1970-01-01T00:00:00Z.
impl Json for Sec {
    ghost value = { λ s. whole s.0 };

    ghost levels = { 0 };

    #[inline]
    fn write(&self, out: &mut Vec<u8>) -> Result<(), AllocError> {
        self.0.write(out)
    }
}

/// A request is written as its number.
impl Json for RequestNo {
    ghost value = { λ request. whole request.0 };

    ghost levels = { 0 };

    #[inline]
    fn write(&self, out: &mut Vec<u8>) -> Result<(), AllocError> {
        self.0.write(out)
    }
}

/// A telescope is written as its number.
impl Json for TelescopeNo {
    ghost value = { λ telescope. whole telescope.0 };

    ghost levels = { 0 };

    #[inline]
    fn write(&self, out: &mut Vec<u8>) -> Result<(), AllocError> {
        self.0.write(out)
    }
}

/// A target is written as its number.
impl Json for TargetNo {
    ghost value = { λ target. whole target.0 };

    ghost levels = { 0 };

    #[inline]
    fn write(&self, out: &mut Vec<u8>) -> Result<(), AllocError> {
        self.0.write(out)
    }
}

/// A member is written as its name.
impl Json for Member {
    ghost value = { λ member. string (name_of member) };

    ghost levels = { 0 };

    fn write(&self, out: &mut Vec<u8>) -> Result<(), AllocError> {
        self.name().write(out)
    }
}

/// A word of the source, made by [`word!`](crate::word): printable ASCII that needs no escape.
#[derive(Drop)]
pub struct Word<'a> {
    /// The text in quotes.
    pub text: &'a str,
    ghost is_quoted: { IsTrue (is_word text.now) },
}

impl<'a> Json for Word<'a> {
    ghost value = { λ w. string (word_in w.text.now) };

    ghost levels = { 0 };

    #[inline]
    fn write(&self, out: &mut Vec<u8>) -> Result<(), AllocError> {
        put(out, self.text.as_bytes())
    }
}

impl<'a, T: Json> Json for &'a T {
    ghost value = { λ r. T.value r.now };

    ghost levels = { T.levels };

    #[inline]
    fn write(&self, out: &mut Vec<u8>) -> Result<(), AllocError> {
        T::write(*self, out)
    }
}

/// None is written as `null`.
impl<T: Json> Json for Option<T> {
    ghost value = { λ o. unwrap_or (option_map T.value o) null };

    ghost levels = { T.levels };

    #[inline]
    fn write(&self, out: &mut Vec<u8>) -> Result<(), AllocError> {
        match self {
            Some(value) => value.write(out),
            None => put(out, b"null"),
        }
    }
}

/// A number above 0: a member that would be 0 is left out.
pub fn above_0(number: u16) -> Option<u16>
    ensures { result ≡ above_0 number }
{
    if number > 0 { Some(number) } else { None }
}

/// `word!("opened")`: a word of the source as a JSON text, printable ASCII that needs no escape.
#[macro_export]
macro_rules! word {
    ($text:literal) => {
        $crate::Word {
            text: concat!("\"", $text, "\""),
        }
    };
}
