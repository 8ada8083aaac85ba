// The text of entries.

ghost use Rattle.std.specs.Prelude.{◌≡◌, ◌++◌, OnOk, OnErr, IfOk};
ghost use Rattle.desk_events.specs.Entry.{data_of_entry, text_of_entry, AddsEntry, AddsLine};
ghost use Rattle.desk_events.specs.Laws.{IsWritableEntry};
ghost use Rattle.desk_events.specs.Refused.{members_of_refusal};
ghost use Rattle.desk_events.specs.Replied.{members_of_reply};

use crate::entry::EventEntry;
use crate::refusal::Refusal;
use crate::reply::Reply;
use crate::write::reasons::write_rejected;
use crate::write::{refusals, replies};
use std::alloc::{AllocError, Global};

/// Adds the object of an entry that refuses its line.
fn write_refused(entry: &EventEntry, refusal: Refusal, out: &mut Vec<u8>) -> Result<(), AllocError>
    ensures { AddsEntry result out.old.items out.new.items entry.now (members_of_refusal refusal) }
{
    match refusal {
        Refusal::NotJson => refusals::plain(entry, refusal, 1, "NotJson", out),
        Refusal::NotObject => refusals::plain(entry, refusal, 2, "NotObject", out),
        Refusal::Missing { member } => {
            refusals::of_member(entry, refusal, 3, "Missing", member, out)
        }
        Refusal::WrongKind { member } => {
            refusals::of_member(entry, refusal, 4, "WrongKind", member, out)
        }
        Refusal::NotWhole { member } => {
            refusals::of_member(entry, refusal, 5, "NotWhole", member, out)
        }
        Refusal::OutOfRange { member } => {
            refusals::of_member(entry, refusal, 6, "OutOfRange", member, out)
        }
        Refusal::BadMoment { member } => {
            refusals::of_member(entry, refusal, 7, "BadMoment", member, out)
        }
        Refusal::BadShape { count, operator } => {
            refusals::bad_shape(entry, count, operator, out)
        }
        Refusal::BadWindow { index, window } => refusals::bad_window(entry, index, window, out),
        Refusal::BadCadence { index } => {
            refusals::at_index(entry, refusal, 10, "BadCadence", index, out)
        }
        Refusal::TooManyWindows { count, index } => {
            refusals::too_many_windows(entry, count, index, out)
        }
        Refusal::TooLong { index, seconds } => refusals::too_long(entry, index, seconds, out),
        Refusal::NoSuchTelescope => refusals::plain(entry, refusal, 13, "NoSuchTelescope", out),
        Refusal::NoSuchSite => refusals::plain(entry, refusal, 14, "NoSuchSite", out),
        Refusal::Repeated => refusals::plain(entry, refusal, 15, "Repeated", out),
        Refusal::Full { limit, what } => refusals::full(entry, limit, what, out),
        Refusal::NoSuchProposal => refusals::plain(entry, refusal, 17, "NoSuchProposal", out),
        Refusal::NoSuchAllocation { account } => refusals::no_such_allocation(entry, account, out),
        Refusal::NotEnoughTime { available, needed } => {
            refusals::not_enough_time(entry, available, needed, out)
        }
        Refusal::NotOpened => refusals::plain(entry, refusal, 20, "NotOpened", out),
        Refusal::AlreadyOpened => refusals::plain(entry, refusal, 21, "AlreadyOpened", out),
        Refusal::OutsideSemester { index } => {
            refusals::at_index(entry, refusal, 22, "OutsideSemester", index, out)
        }
        Refusal::NoTelescope { index } => {
            refusals::at_index(entry, refusal, 23, "NoTelescope", index, out)
        }
        Refusal::NoSuchGroup => refusals::plain(entry, refusal, 24, "NoSuchGroup", out),
        Refusal::GroupClosed { state } => refusals::group_closed(entry, state, out),
        Refusal::GroupStarted { request } => refusals::group_started(entry, request, out),
        Refusal::NoSuchRequest => refusals::plain(entry, refusal, 27, "NoSuchRequest", out),
        Refusal::NotRunning => refusals::plain(entry, refusal, 28, "NotRunning", out),
        Refusal::UsedTooLong { most, used } => refusals::used_too_long(entry, most, used, out),
        Refusal::ClockBack { asked, now } => refusals::clock_back(entry, asked, now, out),
        Refusal::Stale { asked, newer } => refusals::stale(entry, asked, newer, out),
        Refusal::Rejected { reason } => write_rejected(entry, reason, out),
        Refusal::UnknownCommand => refusals::plain(entry, refusal, 33, "UnknownCommand", out),
        Refusal::LineTooLong => refusals::plain(entry, refusal, 34, "LineTooLong", out),
        Refusal::MixedInstruments { index } => {
            refusals::at_index(entry, refusal, 35, "MixedInstruments", index, out)
        }
        Refusal::NoSuchInstrument { index } => {
            refusals::at_index(entry, refusal, 36, "NoSuchInstrument", index, out)
        }
        Refusal::NothingPublished => refusals::plain(entry, refusal, 37, "NothingPublished", out),
        Refusal::TooManyStarts { count } => refusals::too_many_starts(entry, count, out),
        Refusal::WindowPast { index } => {
            refusals::at_index(entry, refusal, 40, "WindowPast", index, out)
        }
    }
}

/// Adds the object of an entry.
fn write_reply(entry: &EventEntry, out: &mut Vec<u8>) -> Result<(), AllocError>
    ensures { AddsEntry result out.old.items out.new.items entry.now
        (members_of_reply entry.now.reply) }
{
    match &entry.reply {
        Reply::Opened => replies::plain(entry, "opened", out),
        Reply::Instrument => replies::plain(entry, "instrument", out),
        Reply::Telescope { telescope } => replies::telescope(entry, *telescope, out),
        Reply::Night => replies::plain(entry, "night", out),
        Reply::Visibility => replies::plain(entry, "visibility", out),
        Reply::Closed => replies::plain(entry, "closed", out),
        Reply::Reopened => replies::plain(entry, "reopened", out),
        Reply::Granted { balance } => replies::granted(entry, *balance, out),
        Reply::Submitted {
            group,
            ipp_charged,
            requests,
        } => replies::submitted(entry, *group, *ipp_charged, requests, out),
        Reply::Amended {
            group,
            ipp_charged,
            refunded,
            replaces,
            requests,
        } => replies::amended(
            entry,
            (*group, *replaces),
            *ipp_charged,
            refunded,
            requests,
            out,
        ),
        Reply::Withdrawn { refunded } => replies::withdrawn(entry, refunded, out),
        Reply::Clocked {
            expired,
            failed,
            refunded,
            started,
        } => replies::clocked(entry, expired, failed, refunded, started, out),
        Reply::Completed { canceled, charged } => {
            replies::completed(entry, canceled, *charged, out)
        }
        Reply::Failed { expired, refunded } => replies::failed(entry, expired, refunded, out),
        Reply::Taken => replies::plain(entry, "taken", out),
        Reply::Published { claim } => replies::published(entry, claim, out),
        Reply::Exported { claim, snapshot } => replies::exported(entry, claim, snapshot, out),
        Reply::Balances { balances } => replies::balances(entry, balances, out),
        Reply::Shown {
            document,
            group,
            requests,
            state,
        } => replies::shown(entry, document, *group, requests, *state, out),
        Reply::Refused(refusal) => write_refused(entry, *refusal, out),
    }
}

/// Adds the text of an entry, or a part of it where memory runs out.
fn write_line(entry: &EventEntry, out: &mut Vec<u8>) -> Result<(), AllocError>
    ensures { AddsLine result out.old.items out.new.items (data_of_entry entry.now) }
{
    write_reply(entry, out)?;
    out.push(b'\n')?;
    Ok(())
}

/// Adds the text of an entry at the end: its JSON object, members in byte order of their names, and a newline. Fails
/// only for want of memory, and then changes nothing.
pub fn write_entry(entry: &EventEntry, into: &mut Vec<u8>) -> Result<(), AllocError>
    ensures ok { OnOk result (into.new.items ≡ into.old.items ++ text_of_entry entry.now) }
    ensures err { OnErr result (into.new.items ≡ into.old.items) }

    // The premise of the laws on texts.
    ensures writable { OnOk result (IsWritableEntry entry.now) }
{
    let len = into.len();
    let done = write_line(entry, into);
    if done.is_err() {
        into.truncate(len);
    }
    done
}

/// The text of an entry, as [`write_entry`] adds it. Fails only for want of memory.
pub fn entry_text(alloc: Global, entry: &EventEntry) -> Result<Vec<u8>, AllocError>
    ensures text { IfOk result (λ text. text.items ≡ text_of_entry entry.now) }
    ensures writable { IfOk result (λ _. IsWritableEntry entry.now) }
{
    let mut text = Vec::new(alloc);
    write_entry(entry, &mut text)?;
    Ok(text)
}
