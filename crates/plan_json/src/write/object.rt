// Objects, by the names and values of their members.
#![tactic(auto, unfolding(crate::specs::Adds::text_of))]

ghost use Rattle.std.specs.Prelude.{ℕ, List, [], ◌∷◌, ◌++◌, suc, max, IsTrue, option_map};
ghost use Rattle.json.specs.Print.{quoted};
ghost use Rattle.serde_json.specs.Data.{Members as MemberList, no_members, member, object};
ghost use Rattle.serde_json.specs.Written.{comma_if};
ghost use Rattle.plan_json.specs.Adds.{Adds, AddsMembers};
ghost use Rattle.plan_json.specs.Literals.{name_in, is_name, is_next};
ghost use Rattle.plan_json.specs.Values.{if_has};

use crate::write::bytes::{put, put_byte};
use crate::write::value::Json;
use std::alloc::AllocError;

/// The members of an object from one on. [`object!`](crate::object) makes them.
pub trait Members {
    /// The members that are there.
    ghost members: { Self → MemberList };

    /// The names of these and of those that may be there.
    ghost names: { Self → List (List ℕ) };

    /// The most levels of lists and objects in a member.
    ghost levels: { ℕ };

    /// Adds the members, each but the first of the object after a comma, and the brace that closes the object.
    fn write_members(&self, is_later: bool, out: &mut Vec<u8>) -> Result<(), AllocError>
        ensures { AddsMembers result out.old.items out.new.items is_later (names self.now) levels (members self.now) };
}

/// No further member.
#[derive(Drop)]
pub struct End;

impl Members for End {
    ghost members = { λ _. no_members };

    ghost names = { λ _. [] };

    ghost levels = { 0 };

    #[inline]
    fn write_members(&self, _is_later: bool, out: &mut Vec<u8>) -> Result<(), AllocError> {
        put_byte(out, b'}')
    }
}

/// Adds a name, with the comma before it if it is a later one.
#[inline]
fn write_name(name: &str, is_later: bool, out: &mut Vec<u8>) -> Result<(), AllocError>
    requires { IsTrue (is_name name.now) }
    ensures { Adds result out.old.items out.new.items (comma_if is_later ++ (quoted (name_in name.now) ++ 58 ∷ [])) }
{
    if is_later {
        return put(out, name.as_bytes());
    }
    put(out, &name.as_bytes()[1..])
}

/// A member, and those after it.
#[derive(Drop)]
pub struct Named<'a, T, R: Members> {
    /// A comma, the name in quotes, and a colon.
    pub name: &'a str,
    /// What it holds.
    pub value: T,
    /// The members after it, whose names come later in byte order.
    pub rest: R,
    ghost is_next: { IsTrue (is_next name.now (R.names rest)) },
}

impl<'a, T: Json, R: Members> Members for Named<'a, T, R> {
    ghost members = { λ m. member (name_in m.name.now) (T.value m.value) (R.members m.rest) };

    ghost names = { λ m. name_in m.name.now ∷ R.names m.rest };

    ghost levels = { max T.levels R.levels };

    #[inline]
    fn write_members(&self, is_later: bool, out: &mut Vec<u8>) -> Result<(), AllocError> {
        write_name(self.name, is_later, out)?;
        self.value.write(out)?;
        self.rest.write_members(true, out)
    }
}

/// A member that is there where it has a value, and those after it.
#[derive(Drop)]
pub struct Perhaps<'a, T, R: Members> {
    /// A comma, the name in quotes, and a colon.
    pub name: &'a str,
    /// What it holds, if it is there.
    pub value: &'a Option<T>,
    /// The members after it, whose names come later in byte order.
    pub rest: R,
    ghost is_next: { IsTrue (is_next name.now (R.names rest)) },
}

impl<'a, T: Json, R: Members> Members for Perhaps<'a, T, R> {
    ghost members = { λ m. if_has (name_in m.name.now) (option_map T.value m.value.now) (R.members m.rest) };

    ghost names = { λ m. name_in m.name.now ∷ R.names m.rest };

    ghost levels = { max T.levels R.levels };

    #[inline]
    fn write_members(&self, is_later: bool, out: &mut Vec<u8>) -> Result<(), AllocError> {
        let Some(value) = self.value else {
            return self.rest.write_members(is_later, out);
        };
        write_name(self.name, is_later, out)?;
        value.write(out)?;
        self.rest.write_members(true, out)
    }
}

/// An object, by its members. [`object!`](crate::object) makes it.
pub struct Object<R> {
    /// The members, in byte order of their names.
    pub members: R,
}

impl<R: Drop> Drop for Object<R> {
    fn drop(self) {
        let Self { members: _ } = self;
    }
}

impl<R: Members> Json for Object<R> {
    ghost value = { λ o. object (R.members o.members) };

    ghost levels = { suc R.levels };

    #[inline]
    fn write(&self, out: &mut Vec<u8>) -> Result<(), AllocError> {
        put_byte(out, b'{')?;
        self.members.write_members(false, out)
    }
}

/// `object!("line": 1u32, "ok": word!("opened"), "site"?: &site)`: an object, its members in byte order of their names,
/// which are printable ASCII that needs no escape. Of a member with `?` the value is an `&Option`, and the member is
/// left out where that is None.
#[macro_export]
macro_rules! object {
    ($($members:tt)*) => {
        $crate::Object {
            members: $crate::members!($($members)*),
        }
    };
}

/// The members of an object from one on, as [`object!`](crate::object) has them.
#[macro_export]
macro_rules! members {
    () => { $crate::End };
    ($name:literal: $value:expr $(, $($rest:tt)*)?) => {
        $crate::Named {
            name: concat!(",\"", $name, "\":"),
            value: $value,
            rest: $crate::members!($($($rest)*)?),
        }
    };
    ($name:literal?: $value:expr $(, $($rest:tt)*)?) => {
        $crate::Perhaps {
            name: concat!(",\"", $name, "\":"),
            value: $value,
            rest: $crate::members!($($($rest)*)?),
        }
    };
}
