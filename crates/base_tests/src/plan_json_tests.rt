// Documents as they are read and written. A row of a table has what the member `at` is asked for, a document, and the
// answer: a number, or the fault's name.

mod reading;
mod rust;
mod writing;

use plan_json::{JsonFault, Member, parse_object};
use std::alloc::Global;
use std::process::Abort;

/// A whole number of 64 bits with a sign, from one to another.
fn whole(alloc: Global, bytes: &[u8], least: i64, most: i64) -> Result<i64, JsonFault> {
    parse_object(alloc, bytes)?.whole(Member::At, least, most)
}

/// A moment's second.
fn moment(alloc: Global, bytes: &[u8]) -> Result<i64, JsonFault> {
    let second = parse_object(alloc, bytes)?.moment(Member::At)?;
    Ok(i64::try_from(second.0).unwrap_or(-1))
}

/// How many seconds a span has.
fn span(alloc: Global, bytes: &[u8]) -> Result<i64, JsonFault> {
    let span = parse_object(alloc, bytes)?.span(Member::At)?;
    Ok(i64::try_from(span.to.0.saturating_sub(span.from.0)).unwrap_or(-1))
}

/// How many spans there are.
fn spans(alloc: Global, bytes: &[u8]) -> Result<i64, JsonFault> {
    let spans = parse_object(alloc, bytes)?.spans(alloc, Member::At)?;
    Ok(i64::try_from(spans.len()).unwrap_or(-1))
}

/// How many bytes a text has.
fn text(alloc: Global, bytes: &[u8]) -> Result<i64, JsonFault> {
    let name = parse_object(alloc, bytes)?.text(alloc, Member::At)?;
    Ok(i64::try_from(name.text().len()).unwrap_or(-1))
}

fn answer(alloc: Global, asked: &str, bytes: &[u8]) -> Result<i64, JsonFault> {
    match asked {
        "small" => whole(alloc, bytes, -3, 5),
        "whole" => whole(alloc, bytes, i64::MIN, i64::MAX),
        "moment" => moment(alloc, bytes),
        "span" => span(alloc, bytes),
        "spans" => spans(alloc, bytes),
        _ => text(alloc, bytes),
    }
}

/// The name of a fault of the member `at`.
fn name_of(fault: JsonFault) -> &'static str {
    match fault {
        JsonFault::NotJson => "NotJson",
        JsonFault::NotObject => "NotObject",
        JsonFault::Missing { member: Member::At } => "Missing",
        JsonFault::WrongKind { member: Member::At } => "WrongKind",
        JsonFault::NotWhole { member: Member::At } => "NotWhole",
        JsonFault::OutOfRange { member: Member::At } => "OutOfRange",
        JsonFault::BadMoment { member: Member::At } => "BadMoment",
        _ => "another",
    }
}

/// Whether an answer is the one that a row has.
fn is_answer(found: Result<i64, JsonFault>, wanted: &str) -> bool {
    match found {
        Ok(number) => wanted.parse::<i64>() == Ok(number),
        Err(fault) => name_of(fault) == wanted,
    }
}

fn is_right(alloc: Global, row: &str) -> bool {
    let Some((asked, rest)) = row.split_once(" | ") else {
        return false;
    };
    let Some((document, wanted)) = rest.split_once(" | ") else {
        return false;
    };
    is_answer(answer(alloc, asked, document.as_bytes()), wanted)
}

/// Asserts each row of a table.
fn assert_table(rt: &impl Abort, alloc: Global, table: &[&str]) {
    for row in table {
        assert!(rt; is_right(alloc, row), "{row}");
    }
}
