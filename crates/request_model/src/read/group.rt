// Request groups.

ghost use Rattle.std.specs.Prelude.{◌≡◌, ◌≢◌, ◌≤◌, IfOk, IfErr, Ok, Err};
ghost use Rattle.plan_base.specs.Limits.{most_ipp};
ghost use Rattle.plan_json.specs.Shown.{members_of};
ghost use Rattle.request_model.specs.declared.fault.GroupFault.TheVariants.{NoMemory};
ghost use Rattle.request_model.specs.Ranges.{IsGroup};
ghost use Rattle.request_model.specs.Group.{kind_named, kind_of, ipp_of, is_shape, requests_of, group_of};

use crate::fault::GroupFault;
use crate::group::{GroupDoc, ObsKind};
use crate::read::request::read_requests;
use crate::request::RequestDoc;
use plan_base::{LEAST_IPP, ListOf, MOST_ASKED, MOST_IPP, MOST_PRIORITY, Op};
use plan_json::{Doc, JsonFault, Member};
use std::alloc::Global;

/// The most elements that a list of requests may have for its shape to be looked at.
const MOST_COUNTED: u32 = 1024;

/// The intra-proposal priority where the document doesn't say: neutral.
const IPP: u32 = 1000;

/// The priority where the document doesn't say.
const PRIORITY: u32 = 10;

fn kind_named(name: &str) -> Option<ObsKind>
    ensures { result ≡ kind_named name.now }
{
    match name {
        "NORMAL" => Some(ObsKind::Normal),
        "TIME_CRITICAL" => Some(ObsKind::TimeCritical),
        "RAPID_RESPONSE" => Some(ObsKind::RapidResponse),
        _ => None,
    }
}

fn read_kind(doc: &Doc) -> Result<ObsKind, JsonFault>
    ensures { result ≡ kind_of (members_of doc.now) }
{
    let member = Member::ObservationType;
    let word = doc.word(member)?;
    kind_named(word).ok_or(JsonFault::OutOfRange { member })
}

/// The intra-proposal priority in thousandths. The portal's own `ipp_value` has a fraction and isn't read: where it
/// stands alone, `ipp_thousandths` is missing.
fn read_ipp(doc: &Doc) -> Result<u32, JsonFault>
    ensures value { result ≡ ipp_of (members_of doc.now) }
    ensures small { IfOk result (λ ipp. ipp ≤ most_ipp) }
{
    let member = Member::IppThousandths;
    if doc.has(member) {
        doc.number(member, LEAST_IPP, MOST_IPP)
    } else if doc.has(Member::IppValue) {
        Err(JsonFault::Missing { member })
    } else {
        Ok(IPP)
    }
}

fn is_shape(op: Op, count: u32) -> bool
    ensures { result ≡ is_shape op count }
{
    match op {
        Op::Single => count == 1,
        Op::Many | Op::OneOf | Op::And => (2..=MOST_ASKED as u32).contains(&count),
    }
}

fn read_shaped(alloc: Global, doc: &Doc, operator: Op) -> Result<ListOf<RequestDoc>, GroupFault>
    ensures value { IfOk result
        (λ requests. requests_of operator (members_of doc.now) ≡ Ok requests) }
    ensures fault { IfErr result
        (λ e. e ≢ NoMemory → requests_of operator (members_of doc.now) ≡ Err e) }
{
    let list = doc.list(Member::Requests, 0, MOST_COUNTED)?;
    let count = list.count();
    if !is_shape(operator, count) {
        return Err(GroupFault::BadShape { operator, count });
    }
    read_requests(alloc, &list)
}

fn read_members(alloc: Global, doc: &Doc) -> Result<GroupDoc, GroupFault>
    ensures value { IfOk result (λ group. group_of (members_of doc.now) ≡ Ok group) }
    ensures fault { IfErr result (λ e. e ≢ NoMemory → group_of (members_of doc.now) ≡ Err e) }
{
    let name = doc.text(alloc, Member::Name)?;
    let proposal = doc.text(alloc, Member::Proposal)?;
    let op = doc.operator(Member::Operator)?;
    let kind = read_kind(doc)?;
    let ipp = read_ipp(doc)?;
    let priority = doc.number_or(Member::Priority, 1, MOST_PRIORITY, PRIORITY)?;
    let requests = read_shaped(alloc, doc, op)?;
    Ok(GroupDoc {
        name,
        proposal,
        op,
        kind,
        ipp: ipp as u16,
        priority: priority as u8,
        requests,
    })
}

/// The group that the document is, or its first fault. Its members are read in this order, and others aren't looked at:
///
/// - `name`, `proposal`: texts of 1 to 128 bytes.
/// - `operator`: `SINGLE`, `MANY`, `ONEOF` or `AND`.
/// - `observation_type`: `NORMAL`, `TIME_CRITICAL` or `RAPID_RESPONSE`.
/// - `ipp_thousandths`, the intra-proposal priority: 500 to 2,000, by default 1,000; but it is missing where the
///   portal's `ipp_value` stands alone.
/// - `priority`: 1 to 100, by default 10.
/// - `requests`: one for `SINGLE`, 2 to 32 for the others, of which each has
///   - `location`: `telescope_class`, and where they are given `site`, `enclosure`, `telescope`, texts as above;
///   - `cadence`: the moments `start` and `end`, and the seconds `period` and `jitter`, each 0 to 15,552,000; or else
///     `windows`: 1 to 32 of the moments `start` and `end`;
///   - `configurations`: 1 to 16, each `instrument_type`, `target` with its `name`, and `instrument_configs`: 1 to 16
///     of `exposure_time_ms`, 1 to 86,400,000, and `exposure_count`, 1 to 10,000;
///   - `acceptability_threshold`: 0 to 100, by default 90;
///   - `fade`: 0 to 1,000, by default 0.
///
/// Fails with [`GroupFault::Json`], a member's fault as [`Doc`] has it; [`GroupFault::BadShape`], once the list and its
/// count are read; [`GroupFault::BadWindow`], after a window's members; [`GroupFault::MixedInstruments`], after all
/// configurations of a request; and for want of memory.
pub fn read_group(alloc: Global, doc: &Doc) -> Result<GroupDoc, GroupFault>
    ensures value { IfOk result (λ group. group_of (members_of doc.now) ≡ Ok group) }
    ensures fault { IfErr result (λ e. e ≢ NoMemory → group_of (members_of doc.now) ≡ Err e) }
    ensures ranges { IfOk result IsGroup }
{
    read_members(alloc, doc)
}
