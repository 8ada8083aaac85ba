// The entries that refuse their line, a function for each list of members. Where an object's members are out of byte
// order, its function isn't proved.
#![tactic(auto, unfolding(crate::specs::Entry::data_with))]

ghost use Rattle.std.specs.Prelude.{◌≡◌, ◌∷◌, [], codes};
ghost use Rattle.serde_json.specs.Data.{string};
ghost use Rattle.plan_json.specs.Member.{name_of};
ghost use Rattle.plan_json.specs.Values.{has, whole};
ghost use Rattle.desk_events.specs.Entry.{AddsEntry};
ghost use Rattle.desk_events.specs.Refused.{refused, members_of_refusal};
ghost use Rattle.desk_events.specs.declared.refusal.Refusal.TheVariants as refusal;

use crate::entry::EventEntry;
use crate::refusal::{FullOf, Refusal};
use crate::write::words::{AccountWord, StateWord};
use allocations::Account;
use plan_base::{Op, RequestNo, RequestState, Sec};
use plan_json::{Member, object, word, write_json};
use std::alloc::AllocError;

/// A refusal with no further member.
pub(crate) fn plain(
    entry: &EventEntry,
    refusal: Refusal,
    number: u8,
    name: &str,
    out: &mut Vec<u8>,
) -> Result<(), AllocError>
    requires { members_of_refusal refusal ≡ refused number name.now [] }
    ensures { AddsEntry result out.old.items out.new.items entry.now (members_of_refusal refusal) }
{
    let object = object!(
        "caller": entry.caller,
        "line": entry.line,
        "no": number,
        "refused": name,
        "version": entry.version,
    );
    write_json(&object, out)
}

/// A refusal for a member of a document.
pub(crate) fn of_member(
    entry: &EventEntry,
    refusal: Refusal,
    number: u8,
    name: &str,
    member: Member,
    out: &mut Vec<u8>,
) -> Result<(), AllocError>
    requires { members_of_refusal refusal ≡ refused number name.now (has (codes "member") (string (name_of member)) ∷ []) }
    ensures { AddsEntry result out.old.items out.new.items entry.now (members_of_refusal refusal) }
{
    let object = object!(
        "caller": entry.caller,
        "line": entry.line,
        "member": member,
        "no": number,
        "refused": name,
        "version": entry.version,
    );
    write_json(&object, out)
}

/// A refusal for a place in a list.
pub(crate) fn at_index(
    entry: &EventEntry,
    refusal: Refusal,
    number: u8,
    name: &str,
    index: u32,
    out: &mut Vec<u8>,
) -> Result<(), AllocError>
    requires { members_of_refusal refusal ≡ refused number name.now (has (codes "index") (whole index) ∷ []) }
    ensures { AddsEntry result out.old.items out.new.items entry.now (members_of_refusal refusal) }
{
    let object = object!(
        "caller": entry.caller,
        "index": index,
        "line": entry.line,
        "no": number,
        "refused": name,
        "version": entry.version,
    );
    write_json(&object, out)
}

/// The refusal of a group with so many requests that its operator doesn't take.
pub(crate) fn bad_shape(
    entry: &EventEntry,
    count: u64,
    operator: Op,
    out: &mut Vec<u8>,
) -> Result<(), AllocError>
    ensures { AddsEntry result out.old.items out.new.items entry.now
        (members_of_refusal (refusal.BadShape count operator)) }
{
    let object = object!(
        "caller": entry.caller,
        "count": count,
        "line": entry.line,
        "no": 8u8,
        "operator": operator,
        "refused": word!("BadShape"),
        "version": entry.version,
    );
    write_json(&object, out)
}

/// The refusal of a window of the request at a place.
pub(crate) fn bad_window(
    entry: &EventEntry,
    index: u32,
    window: u32,
    out: &mut Vec<u8>,
) -> Result<(), AllocError>
    ensures { AddsEntry result out.old.items out.new.items entry.now
        (members_of_refusal (refusal.BadWindow index window)) }
{
    let object = object!(
        "caller": entry.caller,
        "index": index,
        "line": entry.line,
        "no": 9u8,
        "refused": word!("BadWindow"),
        "version": entry.version,
        "window": window,
    );
    write_json(&object, out)
}

/// The refusal of the cadence of the request at a place, which would have so many windows.
pub(crate) fn too_many_windows(
    entry: &EventEntry,
    count: u64,
    index: u32,
    out: &mut Vec<u8>,
) -> Result<(), AllocError>
    ensures { AddsEntry result out.old.items out.new.items entry.now
        (members_of_refusal (refusal.TooManyWindows count index)) }
{
    let object = object!(
        "caller": entry.caller,
        "count": count,
        "index": index,
        "line": entry.line,
        "no": 11u8,
        "refused": word!("TooManyWindows"),
        "version": entry.version,
    );
    write_json(&object, out)
}

/// The refusal of the request at a place, which would take so many seconds.
pub(crate) fn too_long(
    entry: &EventEntry,
    index: u32,
    seconds: u64,
    out: &mut Vec<u8>,
) -> Result<(), AllocError>
    ensures { AddsEntry result out.old.items out.new.items entry.now
        (members_of_refusal (refusal.TooLong index seconds)) }
{
    let object = object!(
        "caller": entry.caller,
        "index": index,
        "line": entry.line,
        "no": 12u8,
        "refused": word!("TooLong"),
        "seconds": seconds,
        "version": entry.version,
    );
    write_json(&object, out)
}

/// The refusal for a limit, and what there would be too many of.
pub(crate) fn full(
    entry: &EventEntry,
    limit: u64,
    what: FullOf,
    out: &mut Vec<u8>,
) -> Result<(), AllocError>
    ensures { AddsEntry result out.old.items out.new.items entry.now
        (members_of_refusal (refusal.Full limit what)) }
{
    let object = object!(
        "caller": entry.caller,
        "limit": limit,
        "line": entry.line,
        "no": 16u8,
        "refused": word!("Full"),
        "version": entry.version,
        "what": what,
    );
    write_json(&object, out)
}

/// The refusal for an account that has no grant.
pub(crate) fn no_such_allocation(
    entry: &EventEntry,
    account: Account,
    out: &mut Vec<u8>,
) -> Result<(), AllocError>
    ensures { AddsEntry result out.old.items out.new.items entry.now
        (members_of_refusal (refusal.NoSuchAllocation account)) }
{
    let object = object!(
        "account": AccountWord(account),
        "caller": entry.caller,
        "line": entry.line,
        "no": 18u8,
        "refused": word!("NoSuchAllocation"),
        "version": entry.version,
    );
    write_json(&object, out)
}

/// The refusal for seconds that are needed and not available.
pub(crate) fn not_enough_time(
    entry: &EventEntry,
    available: u64,
    needed: u64,
    out: &mut Vec<u8>,
) -> Result<(), AllocError>
    ensures { AddsEntry result out.old.items out.new.items entry.now
        (members_of_refusal (refusal.NotEnoughTime available needed)) }
{
    let object = object!(
        "available": available,
        "caller": entry.caller,
        "line": entry.line,
        "needed": needed,
        "no": 19u8,
        "refused": word!("NotEnoughTime"),
        "version": entry.version,
    );
    write_json(&object, out)
}

/// The refusal for a group that has ended in a state.
pub(crate) fn group_closed(
    entry: &EventEntry,
    state: RequestState,
    out: &mut Vec<u8>,
) -> Result<(), AllocError>
    ensures { AddsEntry result out.old.items out.new.items entry.now
        (members_of_refusal (refusal.GroupClosed state)) }
{
    let object = object!(
        "caller": entry.caller,
        "line": entry.line,
        "no": 25u8,
        "refused": word!("GroupClosed"),
        "state": StateWord(state),
        "version": entry.version,
    );
    write_json(&object, out)
}

/// The refusal for a group of which a request runs or is completed.
pub(crate) fn group_started(
    entry: &EventEntry,
    request: RequestNo,
    out: &mut Vec<u8>,
) -> Result<(), AllocError>
    ensures { AddsEntry result out.old.items out.new.items entry.now
        (members_of_refusal (refusal.GroupStarted request)) }
{
    let object = object!(
        "caller": entry.caller,
        "line": entry.line,
        "no": 26u8,
        "refused": word!("GroupStarted"),
        "request": request.0,
        "version": entry.version,
    );
    write_json(&object, out)
}

/// The refusal of a report with more seconds than the request may take.
pub(crate) fn used_too_long(
    entry: &EventEntry,
    most: u64,
    used: u64,
    out: &mut Vec<u8>,
) -> Result<(), AllocError>
    ensures { AddsEntry result out.old.items out.new.items entry.now
        (members_of_refusal (refusal.UsedTooLong most used)) }
{
    let object = object!(
        "caller": entry.caller,
        "line": entry.line,
        "most": most,
        "no": 29u8,
        "refused": word!("UsedTooLong"),
        "used": used,
        "version": entry.version,
    );
    write_json(&object, out)
}

/// The refusal of a moment before that of the desk.
pub(crate) fn clock_back(
    entry: &EventEntry,
    asked: Sec,
    now: Sec,
    out: &mut Vec<u8>,
) -> Result<(), AllocError>
    ensures { AddsEntry result out.old.items out.new.items entry.now
        (members_of_refusal (refusal.ClockBack asked now)) }
{
    let object = object!(
        "asked": asked,
        "caller": entry.caller,
        "line": entry.line,
        "no": 30u8,
        "now": now,
        "refused": word!("ClockBack"),
        "version": entry.version,
    );
    write_json(&object, out)
}

/// The refusal of a claim for another version than the desk's.
pub(crate) fn stale(
    entry: &EventEntry,
    asked: u64,
    newer: u64,
    out: &mut Vec<u8>,
) -> Result<(), AllocError>
    ensures { AddsEntry result out.old.items out.new.items entry.now
        (members_of_refusal (refusal.Stale asked newer)) }
{
    let object = object!(
        "asked": asked,
        "caller": entry.caller,
        "line": entry.line,
        "newer": newer,
        "no": 31u8,
        "refused": word!("Stale"),
        "version": entry.version,
    );
    write_json(&object, out)
}

/// The refusal of a plan with so many possible starts.
pub(crate) fn too_many_starts(
    entry: &EventEntry,
    count: u64,
    out: &mut Vec<u8>,
) -> Result<(), AllocError>
    ensures { AddsEntry result out.old.items out.new.items entry.now
        (members_of_refusal (refusal.TooManyStarts count)) }
{
    let object = object!(
        "caller": entry.caller,
        "count": count,
        "line": entry.line,
        "no": 38u8,
        "refused": word!("TooManyStarts"),
        "version": entry.version,
    );
    write_json(&object, out)
}
