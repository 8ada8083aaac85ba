// Snapshots.

ghost use Rattle.std.specs.Prelude.{◌≡◌, ◌≢◌, IfOk, IfErr, Ok, Err};
ghost use Rattle.plan_doc.specs.Limits.{highest_quota};
ghost use Rattle.plan_base.specs.Snapshot.{IsInRanges};
ghost use Rattle.plan_json.specs.declared.fault.JsonFault.TheVariants as json;
ghost use Rattle.plan_json.specs.Shown.{members_of};
ghost use Rattle.plan_json.specs.Whole.{number_in};
ghost use Rattle.plan_doc.specs.declared.fault.DocFault.TheVariants.{NoMemory};
ghost use Rattle.plan_doc.specs.Snapshot.{quotas_of, parts_of, snapshot_of};

use crate::fault::DocFault;
use crate::read::group::Groups;
use crate::read::number::number_at;
use crate::read::sky::{MOST_ITEMS, Skies, Telescopes};
use plan_base::{
    LEAST_LEN, ListOf, MOST_FIRST, MOST_LEN, MOST_SLICES, MOST_VERSION, Parts, SliceNo, Snapshot,
};
use plan_json::{Doc, DocList, Element, JsonFault, Member, read_list};
use std::alloc::Global;

/// The greatest number of seconds of a quota that is read.
const HIGHEST_QUOTA: u64 = 1_000_000_000_000;

/// Seconds of quotas.
struct QuotaSeconds;

impl Element<u64> for QuotaSeconds {
    ghost element_in = { number_in 0 highest_quota };

    fn read(&self, _alloc: Global, list: &DocList, index: u32) -> Result<u64, JsonFault> {
        number_at(list, index, HIGHEST_QUOTA)
    }
}

/// The quotas, or none where they aren't there.
fn read_quotas(alloc: Global, doc: &Doc) -> Result<ListOf<u64>, JsonFault>
    ensures value { IfOk result (λ quotas. quotas_of (members_of doc.now) ≡ Ok quotas) }
    ensures fault { IfErr result (λ e. e ≢ json.NoMemory → quotas_of (members_of doc.now) ≡ Err e) }
{
    if doc.has(Member::Quotas) {
        read_list(alloc, &QuotaSeconds, doc, Member::Quotas, 0, MOST_ITEMS)
    } else {
        Ok(ListOf::new(alloc))
    }
}

fn read_members(alloc: Global, doc: &Doc) -> Result<Parts, JsonFault>
    ensures value { IfOk result (λ parts. parts_of (members_of doc.now) ≡ Ok parts) }
    ensures fault { IfErr result (λ e. e ≢ json.NoMemory → parts_of (members_of doc.now) ≡ Err e) }
{
    let version = doc.number(Member::Version, 0, MOST_VERSION)?;
    let len = doc.number(Member::Len, LEAST_LEN, MOST_LEN)?;
    let first = doc.number(Member::First, 0, MOST_FIRST)?;
    let slices = doc.number(Member::Slices, 1, MOST_SLICES)?;
    let telescopes = read_list(alloc, &Telescopes, doc, Member::Telescopes, 0, MOST_ITEMS)?;
    let skies = read_list(alloc, &Skies, doc, Member::Skies, 0, MOST_ITEMS)?;
    let groups = read_list(alloc, &Groups, doc, Member::Groups, 0, MOST_ITEMS)?;
    let quotas = read_quotas(alloc, doc)?;
    Ok(Parts {
        version: u64::from(version),
        len,
        first: SliceNo(first),
        slices,
        telescopes,
        skies,
        groups,
        quotas,
    })
}

/// The parts that the document has, whose numbers are in their ranges.
fn read_parts(alloc: Global, doc: &Doc) -> Result<Parts, JsonFault>
    ensures value { IfOk result (λ parts. parts_of (members_of doc.now) ≡ Ok parts) }
    ensures fault { IfErr result (λ e. e ≢ json.NoMemory → parts_of (members_of doc.now) ≡ Err e) }
    ensures ranges { IfOk result IsInRanges }
{
    read_members(alloc, doc)
}

/// The snapshot that the document is, or its first fault. Its members are read in this order, and others aren't looked
/// at; a list has at most 65,536 elements, a moment is a whole number from 0 to 10^12, and `site`, `target`, the
/// numbers of telescopes and targets and the places of quotas are 0 to 65,535:
///
/// - `version`, 0 to 524,288; `len`, 60 to 3,600; `first`, 0 to 4,223,371,680; `slices`, 1 to 1,440.
/// - `telescopes`: objects with `site` and `usable`, a list of `[from,to]`.
/// - `skies`: objects with `target`, `site` and `spans`, a list of `[from,to]`.
/// - `groups`: objects with `group`, 0 to 4,294,967,295, `operator`, and `requests`: objects with
///   - `request`, 0 to 4,294,967,295; `seconds`, 1 to 86,400; `value`, 1 to 288,000,000;
///   - `telescopes` and `targets`, lists of numbers; `windows`, a list of `[from,to]`;
///   - `fade`: 0 to 1,000, by default 0;
///
///   and, where the group counts towards a quota, its place `quota`.
/// - `quotas`, none where it isn't there: numbers from 0 to 10^12.
///
/// Fails with [`DocFault::Json`], a member's fault as [`Doc`] has it, the faults of an element naming its list; once
/// all is read, with [`DocFault::Snapshot`], as [`Snapshot::build`] has it; and for want of memory.
pub fn read_snapshot(alloc: Global, doc: &Doc) -> Result<Snapshot, DocFault>
    ensures value { IfOk result (λ snapshot. snapshot_of (members_of doc.now) ≡ Ok snapshot) }
    ensures fault { IfErr result (λ e. e ≢ NoMemory → snapshot_of (members_of doc.now) ≡ Err e) }
{
    let parts = read_parts(alloc, doc)?;
    Ok(Snapshot::build(alloc, parts)?)
}
