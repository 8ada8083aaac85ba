// Requests and groups.

ghost use Rattle.std.specs.Prelude.{◌≡◌, ◌≢◌, IfOk, IfErr, Ok, Err};
ghost use Rattle.plan_doc.specs.Limits.{highest_number};
ghost use Rattle.plan_json.specs.declared.fault.JsonFault.TheVariants.{NoMemory};
ghost use Rattle.plan_json.specs.declared.member.Member.TheVariants as key;
ghost use Rattle.plan_json.specs.Elements.{each_of};
ghost use Rattle.plan_json.specs.Object.{if_there};
ghost use Rattle.plan_json.specs.Shown.{members_of};
ghost use Rattle.plan_json.specs.Whole.{number_in};
ghost use Rattle.plan_doc.specs.Ranges.{AreUpTo, IsGroup};
ghost use Rattle.plan_doc.specs.Snapshot.{telescope_number_in, target_number_in, request_of, request_in, group_of, group_in};

use crate::read::number::number_at;
use crate::read::sky::{HIGHEST_NUMBER, MOST_ITEMS, read_spans};
use plan_base::{
    GroupNo, GroupPart, ListOf, MOST_FADE, MOST_SECONDS, MOST_VALUE, RequestNo, RequestPart,
    TargetNo, TelescopeNo,
};
use plan_json::{Doc, DocList, Element, JsonFault, Member, read_list};
use std::alloc::Global;

/// Numbers of telescopes.
struct TelescopeNumbers;

impl Element<TelescopeNo> for TelescopeNumbers {
    ghost element_in = { telescope_number_in };

    fn read(&self, _alloc: Global, list: &DocList, index: u32) -> Result<TelescopeNo, JsonFault> {
        let number = number_at(list, index, u64::from(HIGHEST_NUMBER))?;
        Ok(TelescopeNo(number as u16))
    }
}

/// Numbers of targets.
struct TargetNumbers;

impl Element<TargetNo> for TargetNumbers {
    ghost element_in = { target_number_in };

    fn read(&self, _alloc: Global, list: &DocList, index: u32) -> Result<TargetNo, JsonFault> {
        let number = number_at(list, index, u64::from(HIGHEST_NUMBER))?;
        Ok(TargetNo(number as u16))
    }
}

fn read_request(alloc: Global, doc: &Doc) -> Result<RequestPart, JsonFault>
    ensures value { IfOk result (λ q. request_of (members_of doc.now) ≡ Ok q) }
    ensures fault { IfErr result (λ e. e ≢ NoMemory → request_of (members_of doc.now) ≡ Err e) }
{
    let request = doc.number(Member::Request, 0, u32::MAX)?;
    let seconds = doc.number(Member::Seconds, 1, MOST_SECONDS)?;
    let value = doc.number(Member::Value, 1, MOST_VALUE)?;
    let telescopes = read_list(
        alloc,
        &TelescopeNumbers,
        doc,
        Member::Telescopes,
        0,
        MOST_ITEMS,
    )?;
    let targets = read_list(alloc, &TargetNumbers, doc, Member::Targets, 0, MOST_ITEMS)?;
    let windows = read_spans(alloc, doc, Member::Windows)?;
    let fade = doc.number_or(Member::Fade, 0, MOST_FADE, 0)?;
    Ok(RequestPart {
        request: RequestNo(request),
        seconds,
        value,
        windows,
        telescopes,
        targets,
        fade: fade as u16,
    })
}

/// Requests.
struct Requests;

impl Element<RequestPart> for Requests {
    ghost element_in = { request_in };

    fn read(&self, alloc: Global, list: &DocList, index: u32) -> Result<RequestPart, JsonFault> {
        read_request(alloc, &list.object(index)?)
    }
}

/// The place of the quota, if the group names one.
fn read_quota(doc: &Doc) -> Result<Option<u16>, JsonFault>
    ensures { result ≡ if_there (number_in 0 highest_number) (members_of doc.now) key.Quota }
{
    let place = doc.optional_number(Member::Quota, 0, HIGHEST_NUMBER)?;
    Ok(place.map(|place| place as u16))
}

fn read_group(alloc: Global, doc: &Doc) -> Result<GroupPart, JsonFault>
    ensures value { IfOk result (λ x. group_of (members_of doc.now) ≡ Ok x) }
    ensures fault { IfErr result (λ e. e ≢ NoMemory → group_of (members_of doc.now) ≡ Err e) }
{
    let group = doc.number(Member::Group, 0, u32::MAX)?;
    let op = doc.operator(Member::Operator)?;
    let requests = read_list(alloc, &Requests, doc, Member::Requests, 0, MOST_ITEMS)?;
    let quota = read_quota(doc)?;
    Ok(GroupPart {
        group: GroupNo(group),
        op,
        requests,
        quota,
    })
}

/// Groups.
pub(crate) struct Groups;

impl Element<GroupPart> for Groups {
    ghost element_in = { group_in };

    fn read(&self, alloc: Global, list: &DocList, index: u32) -> Result<GroupPart, JsonFault> {
        read_group(alloc, &list.object(index)?)
    }
}

/// The groups, `least` to `most` of them, that the member `groups` is, each as [`read_snapshot`] reads those of a
/// snapshot, and with the faults that it has there.
///
/// [`read_snapshot`]: crate::read_snapshot
pub fn read_groups(
    alloc: Global,
    doc: &Doc,
    least: u32,
    most: u32,
) -> Result<ListOf<GroupPart>, JsonFault>
    ensures value { IfOk result
        (λ groups. each_of group_in least most (members_of doc.now) key.Groups ≡ Ok groups) }
    ensures fault { IfErr result
        (λ e. e ≢ NoMemory → each_of group_in least most (members_of doc.now) key.Groups ≡ Err e) }
    ensures ranges { IfOk result (AreUpTo most IsGroup) }
{
    read_list(alloc, &Groups, doc, Member::Groups, least, most)
}
