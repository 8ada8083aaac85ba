// Names by number: a name's number is its place among those that were named before it.

ghost use Rattle.std.specs.Prelude.{◌≡◌, ◌≢◌, ◌≤◌, Some, None, IfOk, IfErr, OnOk, length, map, if◌then◌else◌};
ghost use Rattle.site_model.specs.declared.fault.SiteFault.TheVariants.{NoMemory};
ghost use Rattle.site_model.specs.Limits.{most_of, full_of};
ghost use Rattle.site_model.specs.Calls.{ChangesOrRefuses};
ghost use Rattle.site_model.specs.Names.{is_named, number_of, numbered};
ghost use Rattle.site_model.specs.Registry.{unknown_of};
ghost use Rattle.site_model.specs.Kept.{name_at, ArePlaces};
ghost use Rattle.indexmap.specs.IndexMap.{keys};

use crate::code::InstrumentTimes;
use crate::fault::{FullOf, SiteFault};
use indexmap::{IndexMap, IndexSet};
use plan_base::{ListOf, Name};
use std::alloc::Global;

/// The number of a name, which gets the next one where it is new; `Full` where there are as many as there may be. An error
/// changes nothing.
pub(crate) fn number(
    names: &mut IndexSet<Name>,
    alloc: Global,
    name: &Name,
    what: FullOf,
) -> Result<usize, SiteFault>
    ensures numbered { let refusal = (if is_named names.old.keys name.now then None else full_of what (length names.old.keys)) in
        ChangesOrRefuses refusal names.old.keys (numbered names.old.keys name.now) names.new.keys result }
    ensures number { IfOk result (λ number. number_of names.new.keys name.now ≡ Some number) }
    ensures few { length names.old.keys ≤ most_of what → length names.new.keys ≤ most_of what }
{
    if let Some(place) = names.get_index_of(name) {
        return Ok(place);
    }
    what.check_room(names.len())?;
    let (place, _) = names.insert_full(name.clone()?)?;
    Ok(place)
}

/// The places of the instruments of these names. `NoSuchInstrument` names the first that isn't registered.
pub(crate) fn places_of(
    alloc: Global,
    instruments: &IndexMap<Name, InstrumentTimes>,
    names: &[Name],
) -> Result<ListOf<usize>, SiteFault>
    ensures places { IfOk result (λ places. map (name_at (keys instruments.now)) places ≡ names.now) }
    ensures within { IfOk result (ArePlaces (keys instruments.now)) }
    ensures allowed { OnOk result (unknown_of (keys instruments.now) names.now ≡ None) }
    ensures refused { IfErr result (λ fault. fault ≢ NoMemory → unknown_of (keys instruments.now) names.now ≡ Some fault) }
{
    let mut places = ListOf::new(alloc);
    for (index, name) in names.iter().enumerate() {
        let Some(place) = instruments.get_index_of(name) else {
            return Err(SiteFault::NoSuchInstrument {
                index: index.min(u32::MAX as usize) as u32,
            });
        };
        places.push(place)?;
    }
    Ok(places)
}
