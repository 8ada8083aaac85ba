// What is taken of one target, and of which instrument type the configurations of a request are.

ghost use Rattle.std.specs.Prelude.{◌≡◌, ◌≢◌, map, IfOk, IfErr, Ok, Err};
ghost use Rattle.plan_json.specs.declared.fault.JsonFault.TheVariants as json;
ghost use Rattle.plan_json.specs.Shown.{members_of};
ghost use Rattle.request_model.specs.Configuration.{exposure_in, typed_of, typed_in, are_of_type, of_one_type, configurations_of};
ghost use Rattle.request_model.specs.declared.fault.GroupFault.TheVariants.{NoMemory};

use crate::fault::GroupFault;
use crate::request::{ConfigDoc, Exposure};
use plan_base::{ListOf, MOST_CONFIGURATIONS, MOST_EXPOSURES, MOST_MS, Name};
use plan_json::{Doc, DocList, Element, JsonFault, Member, read_list};
use std::alloc::{AllocError, Global};

/// A configuration, with its instrument type.
#[derive(Drop)]
pub(crate) struct Typed {
    /// The instrument type.
    pub instrument: Name,
    /// The configuration.
    pub configuration: ConfigDoc,
}

/// Configurations of one instrument type.
#[derive(Drop)]
pub(crate) struct OfOneType {
    /// The instrument type.
    pub instrument: Name,
    /// The configurations, 1 to 16, in the document's order.
    pub configurations: ListOf<ConfigDoc>,
}

/// Exposures of one length.
struct Exposures;

impl Element<Exposure> for Exposures {
    ghost element_in = { exposure_in };

    fn read(&self, _alloc: Global, list: &DocList, index: u32) -> Result<Exposure, JsonFault> {
        let doc = list.object(index)?;
        let ms = doc.number(Member::ExposureTimeMs, 1, MOST_MS)?;
        let count = doc.number(Member::ExposureCount, 1, MOST_EXPOSURES)?;
        Ok(Exposure { ms, count })
    }
}

fn read_typed(alloc: Global, doc: &Doc) -> Result<Typed, JsonFault>
    ensures value { IfOk result (λ typed. typed_of (members_of doc.now) ≡ Ok typed) }
    ensures fault { IfErr result (λ e. e ≢ json.NoMemory → typed_of (members_of doc.now) ≡ Err e) }
{
    let instrument = doc.text(alloc, Member::InstrumentType)?;
    let sky = doc.object(Member::Target)?;
    let target = sky.text(alloc, Member::Name)?;
    let exposures = read_list(
        alloc,
        &Exposures,
        doc,
        Member::InstrumentConfigs,
        1,
        MOST_CONFIGURATIONS,
    )?;
    Ok(Typed {
        instrument,
        configuration: ConfigDoc { target, exposures },
    })
}

/// Configurations, each with its instrument type.
struct Configurations;

impl Element<Typed> for Configurations {
    ghost element_in = { typed_in };

    fn read(&self, alloc: Global, list: &DocList, index: u32) -> Result<Typed, JsonFault> {
        read_typed(alloc, &list.object(index)?)
    }
}

fn are_of_type(typed: &[Typed], instrument: &Name) -> bool
    ensures { result ≡ are_of_type instrument.now typed.now }
{
    typed.iter().all(|one| one.instrument == *instrument)
}

fn without_types(alloc: Global, typed: Vec<Typed>) -> Result<Vec<ConfigDoc>, AllocError>
    ensures { IfOk result (λ all. all.items ≡ map (λ one. one.configuration) typed.items) }
{
    typed
        .into_iter()
        .map(|one| one.configuration)
        .collect(alloc)
}

/// The configurations of the request at that place, if all are of the first one's instrument type.
#[tactic(auto, using(crate::proofs::Types::of_first))]
fn of_one_type(alloc: Global, index: u32, typed: Vec<Typed>) -> Result<OfOneType, GroupFault>
    ensures value { IfOk result (λ all. of_one_type index typed.items ≡ Ok all) }
    ensures fault { IfErr result (λ e. e ≢ NoMemory → of_one_type index typed.items ≡ Err e) }
{
    let [first, ..] = typed.as_slice() else {
        return Err(GroupFault::MixedInstruments { index });
    };
    if !are_of_type(&typed, &first.instrument) {
        return Err(GroupFault::MixedInstruments { index });
    }
    let instrument = first.instrument.clone()?;
    let configurations = without_types(alloc, typed)?;
    Ok(OfOneType {
        instrument,
        configurations: ListOf::from_vec(configurations),
    })
}

/// The configurations of the request at that place, all of one instrument type.
pub(crate) fn read_configurations(
    alloc: Global,
    doc: &Doc,
    index: u32,
) -> Result<OfOneType, GroupFault>
    ensures value { IfOk result (λ all. configurations_of index (members_of doc.now) ≡ Ok all) }
    ensures fault { IfErr result
        (λ e. e ≢ NoMemory → configurations_of index (members_of doc.now) ≡ Err e) }
{
    let typed = read_list(
        alloc,
        &Configurations,
        doc,
        Member::Configurations,
        1,
        MOST_CONFIGURATIONS,
    )?;
    of_one_type(alloc, index, typed.into_vec())
}
