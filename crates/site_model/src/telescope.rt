// What is kept of a telescope, and which telescopes fit.

ghost use Rattle.std.specs.Prelude.{◌≡◌, ◌≤◌, true, IfOk, IfErr, length, option_copied};
ghost use Rattle.std.specs.List.{IsDistinct};
ghost use Rattle.std.specs.Option.{option_map_or};
ghost use Rattle.indexmap.specs.IndexMap.{keys};
ghost use Rattle.site_model.specs.declared.fault.SiteFault.TheVariants.{NoMemory};
ghost use Rattle.plan_base.specs.Limits.{most_telescopes};
ghost use Rattle.site_model.specs.Names.{is_name};
ghost use Rattle.site_model.specs.Kept as kept;
ghost use Rattle.site_model.specs.Kept.{IsAtSite};

use crate::code::{Code, InstrumentTimes};
use crate::fault::SiteFault;
use indexmap::IndexMap;
use plan_base::{ListOf, Name, SiteNo, TelescopeNo};
use std::alloc::Global;

/// What is kept of a telescope beside its code: the number of its site, its class, and the places of its instruments.
pub(crate) struct Telescope {
    /// The number of the site where it stands.
    pub site: SiteNo,
    /// Its class, such as `1m0`.
    pub class: Name,
    /// The places of the instrument types that it carries among those that are registered, from 0.
    pub instruments: ListOf<usize>,
}

impl Drop for Telescope {
    fn drop(self) {
        let Self {
            site: _,
            class: _,
            instruments: _,
        } = self;
    }
}

/// Whether a telescope has the class, and the site, the enclosure and the code where these are given.
pub(crate) fn has_names(
    names: &Code,
    telescope: &Telescope,
    class: &Name,
    site: Option<&Name>,
    enclosure: Option<&Name>,
    code: Option<&Name>,
) -> bool
    ensures { result ≡ kept.has_names names.now telescope.now class.now
        (option_copied site.entry) (option_copied enclosure.entry) (option_copied code.entry) }
{
    telescope.class == *class
        && is_or_any(&names.site, site)
        && is_or_any(&names.enclosure, enclosure)
        && is_or_any(&names.telescope, code)
}

/// Whether a telescope carries an instrument.
pub(crate) fn carries(
    instruments: &IndexMap<Name, InstrumentTimes>,
    telescope: &Telescope,
    name: &Name,
) -> bool
    ensures carries { result ≡ kept.carries (keys instruments.now) telescope.now name.now }
    ensures once { IsDistinct is_name (keys instruments.now) }
{
    match instruments.get_index_of(name) {
        Some(place) => telescope.instruments.as_slice().contains(&place),
        None => false,
    }
}

/// Whether a name is the one that is asked for, if one is.
fn is_or_any(name: &Name, asked: Option<&Name>) -> bool
    ensures { result ≡ option_map_or (is_name name.now) (option_copied asked.entry) true }
{
    match asked {
        Some(asked) => name == asked,
        None => true,
    }
}

/// The numbers of the telescopes of a site, rising. Fails only for want of memory.
pub(crate) fn numbers_at(
    alloc: Global,
    telescopes: &IndexMap<Code, Telescope>,
    site: SiteNo,
) -> Result<Vec<TelescopeNo>, SiteFault>
    requires { length telescopes.now.entries ≤ most_telescopes }
    ensures numbers { IfOk result (λ numbers. IsAtSite telescopes.now.entries site numbers.items) }
    ensures memory { IfErr result (λ fault. fault ≡ NoMemory) }
{
    let mut numbers = Vec::new(alloc);
    for place in 0..telescopes.len() {
        if telescopes[place].site == site {
            numbers.push(TelescopeNo(place as u16))?;
        }
    }
    Ok(numbers)
}
