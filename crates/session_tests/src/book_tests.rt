//! Two callers of one book: what is answered while a Take is open, once a change came between it and its Publish, to what was
//! found for another Take, and where none is open.
use crate::script::{OPENING, PLAN, SETTINGS, SUBMIT, line_of};
use desk_book::{Book, BookStep, PublishStep};
use desk_events::entry_text;
use lanes::solve_plan;
use plan_base::{Solved, Taken};
use plan_io::NoGate;
use std::alloc::{AllocError, Global};
use std::test::Fail;
use std::thread::Threads;

/// What is done with a book.
#[derive(Clone, Copy)]
enum Act<'a> {
    /// A caller sends a line, and its next line is done.
    Send(u8, &'a str),
    /// A caller's next line is done.
    Perform(u8),
    /// What is found for the Take with this place, counted from 0, is published.
    Publish(usize),
}

/// A text of its own.
fn text_of(alloc: Global, text: &str) -> Result<Vec<u8>, AllocError> {
    Vec::from_slice(alloc, text.as_bytes())
}

/// The text of the entry that was added last.
fn last_text(alloc: Global, book: &Book) -> Result<Vec<u8>, AllocError> {
    match book.last() {
        Some(entry) => entry_text(alloc, entry),
        None => text_of(alloc, "no entry"),
    }
}

/// Adds a line to the script of a caller, where there is one with room.
fn push(alloc: Global, book: &mut Book, caller: u8, line: &str) -> Result<(), AllocError> {
    if caller >= book.callers() {
        return Ok(());
    }
    if book.line(caller, 65_535).is_some() {
        return Ok(());
    }
    book.push(caller, line_of(alloc, line)?)
}

/// Does the next line of a caller, where there is one, and says what was done: the text of the entry, or why there is none.
fn perform(
    alloc: Global,
    book: &mut Book,
    takes: &mut Vec<Taken>,
    caller: u8,
) -> Result<Vec<u8>, AllocError> {
    if caller >= book.callers() {
        return text_of(alloc, "no such caller");
    }
    match book.perform(caller)? {
        BookStep::Replied => last_text(alloc, book),
        BookStep::Taken(taken) => {
            takes.push(taken)?;
            last_text(alloc, book)
        }
        BookStep::TakeOpen => text_of(alloc, "open"),
        BookStep::Over => text_of(alloc, "over"),
    }
}

/// What is found for a Take.
fn solve<R: Threads + Sync>(rt: &R, alloc: Global, taken: &Taken) -> Result<Solved, AllocError> {
    let taken = Taken {
        caller: taken.caller,
        settings: SETTINGS,
        snapshot: taken.snapshot.clone()?,
    };
    solve_plan(rt, alloc, taken, &NoGate)
}

/// Publishes what was found, and says what was done: the text of the entry, or why there is none.
fn publish(alloc: Global, book: &mut Book, solved: Solved) -> Result<Vec<u8>, AllocError> {
    match book.publish(solved)? {
        PublishStep::Replied(entry) => {
            let text = entry_text(alloc, &entry);
            // A call drops it. Else it would be dropped here, piece by piece, which the proof would have to follow.
            drop(entry);
            text
        }
        PublishStep::NotTaken => text_of(alloc, "not taken"),
        PublishStep::OtherTake => text_of(alloc, "other take"),
    }
}

/// Does an act, and says what was done.
fn act_on<R: Threads + Sync>(
    rt: &R,
    alloc: Global,
    book: &mut Book,
    takes: &mut Vec<Taken>,
    act: Act,
) -> Result<Vec<u8>, AllocError> {
    match act {
        Act::Send(caller, line) => {
            push(alloc, book, caller, line)?;
            perform(alloc, book, takes, caller)
        }
        Act::Perform(caller) => perform(alloc, book, takes, caller),
        Act::Publish(place) => match takes.get(place) {
            Some(taken) => publish(alloc, book, solve(rt, alloc, taken)?),
            None => text_of(alloc, "no such Take"),
        },
    }
}

/// Whether caller 0 has no line at first, and the lines of the opening are replied to as they should be.
fn opens<R: Threads + Sync>(
    rt: &R,
    alloc: Global,
    book: &mut Book,
    takes: &mut Vec<Taken>,
) -> Result<bool, AllocError> {
    let mut so = perform(alloc, book, takes, 0)?.as_slice() == "over".as_bytes();
    for (line, wanted) in OPENING {
        let found = act_on(rt, alloc, book, takes, Act::Send(0, line))?;
        so = so && found.as_slice() == wanted.as_bytes();
    }
    Ok(so)
}

#[test]
fn a_take_is_published_once(rt: HostRuntime) -> Result<(), Fail> {
    let mut book = Box::new(rt.alloc(), Book::new(rt.alloc(), 2)?)?;
    let mut takes = Vec::new(rt.alloc());
    let opened = opens(&rt, rt.alloc(), &mut book, &mut takes)?;
    assert!(rt; opened);
    for (act, wanted) in [
        (
            Act::Send(0, PLAN),
            "{\"caller\":0,\"line\":8,\"ok\":\"taken\",\"version\":7}\n",
        ),
        (Act::Perform(0), "open"),
        (
            Act::Send(1, SUBMIT),
            "{\"caller\":1,\"group\":2,\"ipp_charged\":0,\"line\":1,\"ok\":\"submitted\",\"requests\":[2],\"version\":7}\n",
        ),
        (
            Act::Publish(0),
            "{\"asked\":7,\"caller\":0,\"line\":8,\"newer\":8,\"no\":31,\"refused\":\"Stale\",\"version\":8}\n",
        ),
        (Act::Publish(0), "not taken"),
        (
            Act::Send(0, PLAN),
            "{\"caller\":0,\"line\":9,\"ok\":\"taken\",\"version\":8}\n",
        ),
        (Act::Publish(0), "other take"),
        (
            Act::Publish(1),
            "{\"caller\":0,\"claim\":{\"bound\":350000,\"placements\":[[1,0,0],[2,0,1]],\"prices\":[25000,25000],\"value\":100000},\"line\":9,\"ok\":\"published\",\"version\":8}\n",
        ),
        (Act::Perform(0), "over"),
        (Act::Perform(1), "over"),
    ] {
        let found = act_on(&rt, rt.alloc(), &mut book, &mut takes, act)?;
        assert!(rt; found.as_slice() == wanted.as_bytes(), "wanted {wanted}");
    }
    Ok(())
}
