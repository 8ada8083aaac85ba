// Requests.

ghost use Rattle.std.specs.Prelude.{◌≡◌, ◌≢◌, ◌<◌, length, IfOk, IfErr, Ok, Err};
ghost use Rattle.plan_json.specs.Shown.{members_of, elements_of, element_of, named_by};
ghost use Rattle.plan_json.specs.declared.member.Member.TheVariants as member;
ghost use Rattle.plan_json.specs.Reading.{read_from};
ghost use Rattle.request_model.specs.declared.fault.GroupFault.TheVariants.{NoMemory};
ghost use Rattle.request_model.specs.Request.{request_of, request_in};

use crate::fault::GroupFault;
use crate::read::configuration::read_configurations;
use crate::read::location::read_location;
use crate::read::when::read_when;
use crate::request::RequestDoc;
use plan_base::{ListOf, MOST_FADE, MOST_PERCENT};
use plan_json::{Doc, DocList, Member};
use std::alloc::Global;

/// The percent that has to be taken where the document doesn't say.
const THRESHOLD: u32 = 90;

/// The request at that place.
fn read_request(alloc: Global, doc: &Doc, index: u32) -> Result<RequestDoc, GroupFault>
    ensures value { IfOk result (λ request. request_of index (members_of doc.now) ≡ Ok request) }
    ensures fault { IfErr result (λ e. e ≢ NoMemory → request_of index (members_of doc.now) ≡ Err e) }
{
    let location = read_location(alloc, &doc.object(Member::Location)?)?;
    let when = read_when(alloc, doc, index)?;
    let taken = read_configurations(alloc, doc, index)?;
    let threshold = doc.number_or(Member::AcceptabilityThreshold, 0, MOST_PERCENT, THRESHOLD)?;
    let fade = doc.number_or(Member::Fade, 0, MOST_FADE, 0)?;
    Ok(RequestDoc {
        location,
        when,
        instrument: taken.instrument,
        configurations: taken.configurations,
        threshold: threshold as u8,
        fade: fade as u16,
    })
}

fn read_request_at(alloc: Global, list: &DocList, index: u32) -> Result<RequestDoc, GroupFault>
    requires member { named_by list.now ≡ member.Requests }
    requires within { index < length (elements_of list.now) }
    ensures value { IfOk result (λ request. request_in index (element_of list.now index) ≡ Ok request) }
    ensures fault { IfErr result
        (λ e. e ≢ NoMemory → request_in index (element_of list.now index) ≡ Err e) }
{
    read_request(alloc, &list.object(index)?, index)
}

/// The requests that all elements are.
pub(crate) fn read_requests(alloc: Global, list: &DocList) -> Result<ListOf<RequestDoc>, GroupFault>
    requires { named_by list.now ≡ member.Requests }
    ensures value { IfOk result
        (λ requests. read_from request_in 0 (elements_of list.now) ≡ Ok requests) }
    ensures fault { IfErr result
        (λ e. e ≢ NoMemory → read_from request_in 0 (elements_of list.now) ≡ Err e) }
{
    let mut requests = ListOf::new(alloc);
    for index in 0..list.count() {
        requests.push(read_request_at(alloc, list, index)?)?;
    }
    Ok(requests)
}
