// Names, as they are written.

ghost use Rattle.std.specs.Prelude.{◌≡◌, ◌++◌, decimal};
ghost use Rattle.serde_json.specs.Data.{string};
ghost use Rattle.workload.specs.Names.{class_name, instrument_name, enclosure_name, telescope_name, site_name, name_text};

use crate::class::Class;
use plan_json::Json;
use std::alloc::{AllocError, Global};

/// A name of a class of telescopes, or of a site, which is counted from 0.
#[derive(Drop)]
pub(crate) enum Name {
    Class(Class),
    /// The instrument type that the telescopes of a class carry.
    Instrument(Class),
    /// The enclosure that the telescope of a class stands in.
    Enclosure(Class),
    /// The telescope of a class at a site.
    Telescope(Class),
    Site(u32),
}

fn class_name(class: Class) -> &'static str
    ensures { result.now ≡ class_name class }
{
    match class {
        Class::OneMetre => "1m0",
        Class::FortyCentimetres => "0m4",
    }
}

fn instrument_name(class: Class) -> &'static str
    ensures { result.now ≡ instrument_name class }
{
    match class {
        Class::OneMetre => "1M0-CAM",
        Class::FortyCentimetres => "0M4-CAM",
    }
}

fn enclosure_name(class: Class) -> &'static str
    ensures { result.now ≡ enclosure_name class }
{
    match class {
        Class::OneMetre => "doma",
        Class::FortyCentimetres => "clma",
    }
}

fn telescope_name(class: Class) -> &'static str
    ensures { result.now ≡ telescope_name class }
{
    match class {
        Class::OneMetre => "1m0a",
        Class::FortyCentimetres => "0m4a",
    }
}

fn site_name(site: u32) -> &'static str
    ensures { result.now ≡ site_name site }
{
    match site {
        0 => "coj",
        1 => "lsc",
        _ => "cpt",
    }
}

fn text(name: &Name) -> &'static str
    ensures { result.now ≡ name_text name.now }
{
    match name {
        Name::Class(class) => class_name(*class),
        Name::Instrument(class) => instrument_name(*class),
        Name::Enclosure(class) => enclosure_name(*class),
        Name::Telescope(class) => telescope_name(*class),
        Name::Site(site) => site_name(*site),
    }
}

impl Json for Name {
    ghost value = { λ name. string (name_text name) };

    ghost levels = { 0 };

    fn write(&self, out: &mut Vec<u8>) -> Result<(), AllocError> {
        text(self).write(out)
    }
}

/// A name that is a letter and a number. What memory it takes to write comes from the allocator.
#[derive(Drop)]
pub(crate) struct Numbered<'a> {
    /// The allocator.
    pub alloc: Global,
    /// What stands before the number.
    pub letter: &'a str,
    /// The number, written in decimal digits.
    pub number: u32,
}

impl<'a> Json for Numbered<'a> {
    ghost value = { λ name. string (name.letter.now ++ decimal name.number) };

    ghost levels = { 0 };

    fn write(&self, out: &mut Vec<u8>) -> Result<(), AllocError> {
        let letter = self.letter;
        let number = self.number;
        let name = format!(in self.alloc; "{letter}{number}")?;
        name.as_str().write(out)
    }
}
