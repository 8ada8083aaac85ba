//! The lines of several callers, each in the script of the caller that it names.
ghost use Rattle.std.specs.Prelude.{◌≡◌, ℕ, ◌<◌, length, IfOk, IfSome, OnErr};
ghost use Rattle.plan_base.specs.Limits.{most_callers};
ghost use Rattle.plan_io.specs.Limits.{most_input_lines};
ghost use Rattle.plan_json.specs.Shown.{members_of};
ghost use Rattle.desk_core.specs.History.{script_of};
ghost use Rattle.desk_book.specs.Seen.{empty_book};
ghost use Rattle.session.specs.Live.{caller_in, caller_of_bytes, caller_of};
ghost use Rattle.session.specs.LiveParts.{IsSent, IsInput, IsInputCause, HasReadSome};

use desk_book::Book;
use plan_base::MOST_CALLERS;
use plan_io::{LineAnswer, Lines, MOST_LINES, ScriptLine, Source};
use plan_json::{Doc, JsonFault, Member, parse_object};
use std::alloc::{AllocError, Global};

/// The most bytes of the lines of several callers. They are fewer than a session of one caller may have, since all lines are kept.
const MOST_LIVE_BYTES: u64 = 16_777_216;

/// The greatest number of a caller.
const LAST_CALLER: u32 = MOST_CALLERS as u32 - 1;

/// What was read of a source.
#[derive(Clone, Copy)]
pub(crate) enum Input {
    /// All lines, and each names a caller.
    Whole,
    /// The line of this number names no caller. Lines are counted from 1.
    NoCaller(u32),
    /// Lines that name callers, and then a read failed.
    ReadFault,
    /// Lines that name callers, and then more than a source may have.
    InputOver,
}

/// The caller that an object names, 0 to 7.
fn caller_in(doc: &Doc) -> Option<u8>
    ensures caller { result ≡ caller_in (members_of doc.now) }
    ensures small { IfSome result (λ caller. caller < most_callers) }
{
    match doc.number(Member::Caller, 0, LAST_CALLER) {
        Ok(number) => Some(number as u8),
        Err(_) => None,
    }
}

/// The caller that bytes name.
fn caller_of_bytes(alloc: Global, bytes: &[u8]) -> Result<Option<u8>, AllocError>
    ensures caller { IfOk result (λ caller. caller ≡ caller_of_bytes bytes.now) }
    ensures small { IfOk result (λ caller. IfSome caller (λ number. number < most_callers)) }
{
    match parse_object(alloc, bytes) {
        Ok(doc) => Ok(caller_in(&doc)),
        Err(JsonFault::NoMemory) => Err(AllocError),
        Err(_) => Ok(None),
    }
}

/// The caller that a line names, 0 to 7. None where the line is too long, isn't an object, or its caller isn't a whole number
/// in this range. Fails only for want of memory.
fn caller_of(alloc: Global, line: &ScriptLine) -> Result<Option<u8>, AllocError>
    ensures caller { IfOk result (λ caller. caller ≡ caller_of line.now) }
    ensures small { IfOk result (λ caller. IfSome caller (λ number. number < most_callers)) }
{
    match line {
        ScriptLine::Bytes(bytes) => caller_of_bytes(alloc, bytes.as_slice()),
        ScriptLine::TooLong => Ok(None),
    }
}

/// Adds a line to the script of the caller that it names, and says whether it names one.
fn send_line(alloc: Global, book: &mut Book, line: ScriptLine) -> Result<bool, AllocError>
    requires callers { length book.old.scripts ≡ most_callers }
    requires room { (caller : ℕ) → length (script_of book.old.scripts caller) < most_input_lines }
    ensures { IfOk result (IsSent book.old line book.new) }
{
    let Some(caller) = caller_of(alloc, &line)? else {
        return Ok(false);
    };
    book.push(caller, line)?;
    Ok(true)
}

/// Reads the lines, at most 16,777,216 bytes and 65,536 lines, up to the first that names no caller, and adds each to the script
/// of its caller.
pub(crate) fn read_input<S: Source>(
    alloc: Global,
    source: &mut S,
    book: &mut Book,
) -> Result<Input, AllocError>
    requires { book.old ≡ empty_book 8 }
    ensures input { IfOk result (IsInput (S.left source.old) (S.left source.new) book.new) }
    ensures cause { IfOk result (IsInputCause (S.faults source.old) (S.faults source.new)) }
    ensures first { OnErr result (HasReadSome (S.left source.old) (S.left source.new)) }
{
    let mut reader = Lines::new(alloc, MOST_LIVE_BYTES, u64::from(MOST_LINES))?;
    let mut number: u32 = 0;
    loop {
        match reader.next(source)? {
            LineAnswer::Line(line) => {
                number += 1;
                if !send_line(alloc, book, line)? {
                    return Ok(Input::NoCaller(number));
                }
            }
            LineAnswer::End => return Ok(Input::Whole),
            LineAnswer::ReadFault => return Ok(Input::ReadFault),
            LineAnswer::InputOver => return Ok(Input::InputOver),
        }
    }
}
