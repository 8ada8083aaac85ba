// The entries that accept their line, a function for each list of members. Where an object's members are out of byte
// order, its function isn't proved.
#![tactic(auto, unfolding(crate::specs::Entry::data_with))]

ghost use Rattle.std.specs.Prelude.{◌≡◌, []};
ghost use Rattle.desk_events.specs.Entry.{AddsEntry};
ghost use Rattle.desk_events.specs.Replied.{accepted, members_of_reply};
ghost use Rattle.desk_events.specs.declared.reply.Reply.TheVariants as reply;

use crate::entry::EventEntry;
use crate::reply::{AccountBalance, GroupRefund, MemberState};
use crate::write::words::StateWord;
use plan_base::{Claim, GroupNo, ListOf, RequestNo, RequestState, Snapshot, TelescopeNo};
use plan_doc::{ClaimDoc, SnapshotDoc};
use plan_json::{object, word, write_json};
use request_model::GroupDoc;
use std::alloc::AllocError;

/// A reply with no further member.
pub(crate) fn plain(entry: &EventEntry, name: &str, out: &mut Vec<u8>) -> Result<(), AllocError>
    requires { members_of_reply entry.now.reply ≡ accepted name.now [] }
    ensures { AddsEntry result out.old.items out.new.items entry.now
        (members_of_reply entry.now.reply) }
{
    let object = object!(
        "caller": entry.caller,
        "line": entry.line,
        "ok": name,
        "version": entry.version,
    );
    write_json(&object, out)
}

/// A telescope was registered and has this number.
pub(crate) fn telescope(
    entry: &EventEntry,
    telescope: TelescopeNo,
    out: &mut Vec<u8>,
) -> Result<(), AllocError>
    ensures { AddsEntry result out.old.items out.new.items entry.now
        (members_of_reply (reply.Telescope telescope)) }
{
    let object = object!(
        "caller": entry.caller,
        "line": entry.line,
        "ok": word!("telescope"),
        "telescope": telescope.0,
        "version": entry.version,
    );
    write_json(&object, out)
}

/// An account was granted time and has so many seconds now.
pub(crate) fn granted(entry: &EventEntry, balance: u64, out: &mut Vec<u8>) -> Result<(), AllocError>
    ensures { AddsEntry result out.old.items out.new.items entry.now
        (members_of_reply (reply.Granted balance)) }
{
    let object = object!(
        "balance": balance,
        "caller": entry.caller,
        "line": entry.line,
        "ok": word!("granted"),
        "version": entry.version,
    );
    write_json(&object, out)
}

/// A group was submitted: its number, what it was charged, and the numbers of its requests.
pub(crate) fn submitted(
    entry: &EventEntry,
    group: GroupNo,
    ipp_charged: u64,
    requests: &ListOf<RequestNo>,
    out: &mut Vec<u8>,
) -> Result<(), AllocError>
    ensures { AddsEntry result out.old.items out.new.items entry.now
        (members_of_reply (reply.Submitted group ipp_charged requests.now)) }
{
    let object = object!(
        "caller": entry.caller,
        "group": group.0,
        "ipp_charged": ipp_charged,
        "line": entry.line,
        "ok": word!("submitted"),
        "requests": requests,
        "version": entry.version,
    );
    write_json(&object, out)
}

/// A group was amended: its new number and its old one, what it was charged and refunded, and the numbers of its requests.
pub(crate) fn amended(
    entry: &EventEntry,
    groups: (GroupNo, GroupNo),
    ipp_charged: u64,
    refunded: &ListOf<GroupRefund>,
    requests: &ListOf<RequestNo>,
    out: &mut Vec<u8>,
) -> Result<(), AllocError>
    ensures { AddsEntry result out.old.items out.new.items entry.now
        (members_of_reply (reply.Amended groups.0 ipp_charged refunded.now groups.1 requests.now)) }
{
    let (group, replaces) = groups;
    let object = object!(
        "caller": entry.caller,
        "group": group.0,
        "ipp_charged": ipp_charged,
        "line": entry.line,
        "ok": word!("amended"),
        "refunded": refunded,
        "replaces": replaces.0,
        "requests": requests,
        "version": entry.version,
    );
    write_json(&object, out)
}

/// A group was withdrawn, with what was refunded.
pub(crate) fn withdrawn(
    entry: &EventEntry,
    refunded: &ListOf<GroupRefund>,
    out: &mut Vec<u8>,
) -> Result<(), AllocError>
    ensures { AddsEntry result out.old.items out.new.items entry.now
        (members_of_reply (reply.Withdrawn refunded.now)) }
{
    let object = object!(
        "caller": entry.caller,
        "line": entry.line,
        "ok": word!("withdrawn"),
        "refunded": refunded,
        "version": entry.version,
    );
    write_json(&object, out)
}

/// The clock went on, with the requests that ended or began and what was refunded.
pub(crate) fn clocked(
    entry: &EventEntry,
    expired: &ListOf<RequestNo>,
    failed: &ListOf<RequestNo>,
    refunded: &ListOf<GroupRefund>,
    started: &ListOf<RequestNo>,
    out: &mut Vec<u8>,
) -> Result<(), AllocError>
    ensures { AddsEntry result out.old.items out.new.items entry.now
        (members_of_reply (reply.Clocked expired.now failed.now refunded.now started.now)) }
{
    let object = object!(
        "caller": entry.caller,
        "expired": expired,
        "failed": failed,
        "line": entry.line,
        "ok": word!("clocked"),
        "refunded": refunded,
        "started": started,
        "version": entry.version,
    );
    write_json(&object, out)
}

/// A request was completed, with the requests that are no longer wanted and the seconds that were charged.
pub(crate) fn completed(
    entry: &EventEntry,
    canceled: &ListOf<RequestNo>,
    charged: u64,
    out: &mut Vec<u8>,
) -> Result<(), AllocError>
    ensures { AddsEntry result out.old.items out.new.items entry.now
        (members_of_reply (reply.Completed canceled.now charged)) }
{
    let object = object!(
        "caller": entry.caller,
        "canceled": canceled,
        "charged": charged,
        "line": entry.line,
        "ok": word!("completed"),
        "version": entry.version,
    );
    write_json(&object, out)
}

/// A request failed, with the requests that ended by that and what was refunded.
pub(crate) fn failed(
    entry: &EventEntry,
    expired: &ListOf<RequestNo>,
    refunded: &ListOf<GroupRefund>,
    out: &mut Vec<u8>,
) -> Result<(), AllocError>
    ensures { AddsEntry result out.old.items out.new.items entry.now
        (members_of_reply (reply.Failed expired.now refunded.now)) }
{
    let object = object!(
        "caller": entry.caller,
        "expired": expired,
        "line": entry.line,
        "ok": word!("failed"),
        "refunded": refunded,
        "version": entry.version,
    );
    write_json(&object, out)
}

/// A claim was published.
pub(crate) fn published(
    entry: &EventEntry,
    claim: &Claim,
    out: &mut Vec<u8>,
) -> Result<(), AllocError>
    ensures { AddsEntry result out.old.items out.new.items entry.now
        (members_of_reply (reply.Published claim.now)) }
{
    let object = object!(
        "caller": entry.caller,
        "claim": ClaimDoc(claim),
        "line": entry.line,
        "ok": word!("published"),
        "version": entry.version,
    );
    write_json(&object, out)
}

/// The last claim that was published, with its snapshot.
pub(crate) fn exported(
    entry: &EventEntry,
    claim: &Claim,
    snapshot: &Snapshot,
    out: &mut Vec<u8>,
) -> Result<(), AllocError>
    ensures { AddsEntry result out.old.items out.new.items entry.now
        (members_of_reply (reply.Exported claim.now snapshot.now)) }
{
    let object = object!(
        "caller": entry.caller,
        "claim": ClaimDoc(claim),
        "line": entry.line,
        "ok": word!("exported"),
        "snapshot": SnapshotDoc(snapshot),
        "version": entry.version,
    );
    write_json(&object, out)
}

/// All accounts with what they have.
pub(crate) fn balances(
    entry: &EventEntry,
    balances: &ListOf<AccountBalance>,
    out: &mut Vec<u8>,
) -> Result<(), AllocError>
    ensures { AddsEntry result out.old.items out.new.items entry.now
        (members_of_reply (reply.Balances balances.now)) }
{
    let object = object!(
        "balances": balances,
        "caller": entry.caller,
        "line": entry.line,
        "ok": word!("balances"),
        "version": entry.version,
    );
    write_json(&object, out)
}

/// A group as it was submitted, with the states of its requests and its own.
pub(crate) fn shown(
    entry: &EventEntry,
    document: &GroupDoc,
    group: GroupNo,
    requests: &ListOf<MemberState>,
    state: RequestState,
    out: &mut Vec<u8>,
) -> Result<(), AllocError>
    ensures { AddsEntry result out.old.items out.new.items entry.now
        (members_of_reply (reply.Shown document.now group requests.now state)) }
{
    let object = object!(
        "caller": entry.caller,
        "document": document,
        "group": group.0,
        "line": entry.line,
        "ok": word!("shown"),
        "requests": requests,
        "state": StateWord(state),
        "version": entry.version,
    );
    write_json(&object, out)
}
