// When a request may be observed.

ghost use Rattle.std.specs.Prelude.{◌≡◌, ◌≢◌, ◌<◌, length, IfOk, IfErr, Ok, Err};
ghost use Rattle.plan_json.specs.declared.member.Member.TheVariants as member;
ghost use Rattle.plan_json.specs.Shown.{members_of, elements_of, element_of, named_by};
ghost use Rattle.plan_json.specs.Reading.{read_from};
ghost use Rattle.request_model.specs.declared.fault.GroupFault.TheVariants.{NoMemory};
ghost use Rattle.request_model.specs.When.{cadence_of, window_in, when_of};

use crate::fault::GroupFault;
use crate::request::{Cadence, When};
use plan_base::{ListOf, MOST_PERIOD, MOST_WINDOWS, Span};
use plan_json::{Doc, DocList, JsonFault, Member};
use std::alloc::Global;

fn read_cadence(doc: &Doc) -> Result<Cadence, JsonFault>
    ensures { result ≡ cadence_of (members_of doc.now) }
{
    let start = doc.moment(Member::Start)?;
    let end = doc.moment(Member::End)?;
    let period = u64::from(doc.number(Member::Period, 0, MOST_PERIOD)?);
    let jitter = u64::from(doc.number(Member::Jitter, 0, MOST_PERIOD)?);
    Ok(Cadence {
        start,
        end,
        period,
        jitter,
    })
}

/// The window at a place of the request at place `index`.
fn read_window(list: &DocList, index: u32, window: u32) -> Result<Span, GroupFault>
    requires member { named_by list.now ≡ member.Windows }
    requires within { window < length (elements_of list.now) }
    ensures { result ≡ window_in index window (element_of list.now window) }
{
    let doc = list.object(window)?;
    let from = doc.moment(Member::Start)?;
    let to = doc.moment(Member::End)?;
    if from < to {
        Ok(Span { from, to })
    } else {
        Err(GroupFault::BadWindow { index, window })
    }
}

fn read_windows(alloc: Global, list: &DocList, index: u32) -> Result<ListOf<Span>, GroupFault>
    requires { named_by list.now ≡ member.Windows }
    ensures value { IfOk result
        (λ windows. read_from (window_in index) 0 (elements_of list.now) ≡ Ok windows) }
    ensures fault { IfErr result
        (λ e. e ≢ NoMemory → read_from (window_in index) 0 (elements_of list.now) ≡ Err e) }
{
    let mut windows = ListOf::new(alloc);
    for window in 0..list.count() {
        windows.push(read_window(list, index, window)?)?;
    }
    Ok(windows)
}

/// The cadence of the request at that place, or else its windows.
pub(crate) fn read_when(alloc: Global, doc: &Doc, index: u32) -> Result<When, GroupFault>
    ensures value { IfOk result (λ times. when_of index (members_of doc.now) ≡ Ok times) }
    ensures fault { IfErr result (λ e. e ≢ NoMemory → when_of index (members_of doc.now) ≡ Err e) }
{
    if doc.has(Member::Cadence) {
        let cadence = doc.object(Member::Cadence)?;
        return Ok(When::Cadence(read_cadence(&cadence)?));
    }
    let list = doc.list(Member::Windows, 1, MOST_WINDOWS)?;
    Ok(When::Windows(read_windows(alloc, &list, index)?))
}
