// Spans, telescopes and skies.

ghost use Rattle.std.specs.Prelude.{◌≡◌, ◌≢◌, IfOk, IfErr, Ok, Err};
ghost use Rattle.plan_json.specs.declared.fault.JsonFault.TheVariants.{NoMemory};
ghost use Rattle.plan_json.specs.Elements.{each_of};
ghost use Rattle.plan_json.specs.Shown.{members_of};
ghost use Rattle.plan_doc.specs.Limits.{most_items};
ghost use Rattle.plan_doc.specs.Snapshot.{span_in, telescope_of, telescope_in, sky_of, sky_in};

use crate::read::number::number_at;
use plan_base::{ListOf, MOST_MOMENT, Sec, SiteNo, Sky, Span, TargetNo, TelescopePart};
use plan_json::{Doc, DocList, Element, JsonFault, Member, read_list};
use std::alloc::Global;

/// The most elements of a list.
pub(crate) const MOST_ITEMS: u32 = 65_536;

/// The greatest number of a site, a target or a telescope.
pub(crate) const HIGHEST_NUMBER: u32 = 65_535;

/// Spans, of any two moments.
struct Spans;

impl Element<Span> for Spans {
    ghost element_in = { span_in };

    fn read(&self, _alloc: Global, list: &DocList, index: u32) -> Result<Span, JsonFault> {
        let pair = list.list(index, 2)?;
        let from = number_at(&pair, 0, MOST_MOMENT)?;
        let to = number_at(&pair, 1, MOST_MOMENT)?;
        Ok(Span {
            from: Sec(from),
            to: Sec(to),
        })
    }
}

/// The spans that the member is.
pub(crate) fn read_spans(
    alloc: Global,
    doc: &Doc,
    member: Member,
) -> Result<ListOf<Span>, JsonFault>
    ensures value { IfOk result
        (λ spans. each_of span_in 0 most_items (members_of doc.now) member ≡ Ok spans) }
    ensures fault { IfErr result
        (λ e. e ≢ NoMemory → each_of span_in 0 most_items (members_of doc.now) member ≡ Err e) }
{
    read_list(alloc, &Spans, doc, member, 0, MOST_ITEMS)
}

fn read_telescope(alloc: Global, doc: &Doc) -> Result<TelescopePart, JsonFault>
    ensures value { IfOk result (λ t. telescope_of (members_of doc.now) ≡ Ok t) }
    ensures fault { IfErr result (λ e. e ≢ NoMemory → telescope_of (members_of doc.now) ≡ Err e) }
{
    let site = doc.number(Member::Site, 0, HIGHEST_NUMBER)?;
    let usable = read_spans(alloc, doc, Member::Usable)?;
    Ok(TelescopePart {
        site: SiteNo(site as u16),
        usable,
    })
}

/// Telescopes.
pub(crate) struct Telescopes;

impl Element<TelescopePart> for Telescopes {
    ghost element_in = { telescope_in };

    fn read(&self, alloc: Global, list: &DocList, index: u32) -> Result<TelescopePart, JsonFault> {
        read_telescope(alloc, &list.object(index)?)
    }
}

fn read_sky(alloc: Global, doc: &Doc) -> Result<Sky, JsonFault>
    ensures value { IfOk result (λ y. sky_of (members_of doc.now) ≡ Ok y) }
    ensures fault { IfErr result (λ e. e ≢ NoMemory → sky_of (members_of doc.now) ≡ Err e) }
{
    let target = doc.number(Member::Target, 0, HIGHEST_NUMBER)?;
    let site = doc.number(Member::Site, 0, HIGHEST_NUMBER)?;
    let spans = read_spans(alloc, doc, Member::Spans)?;
    Ok(Sky {
        target: TargetNo(target as u16),
        site: SiteNo(site as u16),
        spans,
    })
}

/// Skies.
pub(crate) struct Skies;

impl Element<Sky> for Skies {
    ghost element_in = { sky_in };

    fn read(&self, alloc: Global, list: &DocList, index: u32) -> Result<Sky, JsonFault> {
        read_sky(alloc, &list.object(index)?)
    }
}
