//! Sessions over a source and a sink in memory: a fault at each read and at each write, and the limit of bytes at its edge. What
//! whole sessions write stands in the files of cases/session, at the top of the repository.
use crate::ends::status_of;
use crate::script::{OPENING, PLAN, replies_of_opening_then};
use plan_io::{MemSource, Status};
use samples::{sink_of, source_of};
use std::alloc::{AllocError, Global};
use std::test::Fail;
use std::thread::Threads;

/// A session has fewer reads than so many, and fewer writes.
const NO_CALL: u32 = 100;

/// The Take and the Publish of the plan that the lines end with.
const PLANNED: &str = "\
    {\"caller\":0,\"line\":8,\"ok\":\"taken\",\"version\":7}\n\
    {\"caller\":0,\"claim\":{\"bound\":50000,\"placements\":[[1,0,0]],\"prices\":[50000],\"value\":50000},\"line\":8,\"ok\":\"published\",\"version\":7}\n";

/// The lines of a session: the opening, and a plan.
fn lines(alloc: Global) -> Result<Vec<u8>, AllocError> {
    let mut text = Vec::new(alloc);
    for (line, _) in OPENING {
        text.extend_from_slice(line.as_bytes())?;
        text.push(b'\n')?;
    }
    text.extend_from_slice(PLAN.as_bytes())?;
    text.push(b'\n')?;
    Ok(text)
}

/// The replies to all lines.
fn replies(alloc: Global) -> Result<Vec<u8>, AllocError> {
    replies_of_opening_then(alloc, PLANNED)
}

/// The replies to the lines that stand whole, with their newline, in so many first bytes.
fn replies_in(alloc: Global, bytes: usize) -> Result<Vec<u8>, AllocError> {
    let mut text = Vec::new(alloc);
    let mut left = bytes;
    for (line, reply) in OPENING {
        if left <= line.len() {
            return Ok(text);
        }
        left -= line.len() + 1;
        text.extend_from_slice(reply.as_bytes())?;
    }
    if left > PLAN.len() {
        text.extend_from_slice(PLANNED.as_bytes())?;
    }
    Ok(text)
}

/// How a session of the lines ended, and what it wrote.
#[derive(Drop)]
struct Ending {
    status: Status,
    written: Vec<u8>,
}

/// A session of the lines that moves at most 64 bytes a call, and of which this read and this write fail.
fn end<R: Threads + Sync>(
    rt: &R,
    alloc: Global,
    fails: (u32, u32),
) -> Result<Box<Ending>, AllocError> {
    let lines = lines(alloc)?;
    let mut source = source_of(alloc, lines.as_slice(), 64, fails.0)?;
    let mut sink = sink_of(alloc, 64, fails.1)?;
    let status = status_of(rt, alloc, &mut *source, &mut *sink)?;
    let written = Vec::from_slice(alloc, sink.bytes())?;
    Ok(Box::new(alloc, Ending { status, written })?)
}

/// Whether a session whose read with this number fails wrote the replies to the lines that were read whole before, and ended
/// at the fault, or at its end where it has no such read.
fn ends_at_read(alloc: Global, ending: &Ending, call: u32) -> Result<bool, AllocError> {
    let read = replies_in(alloc, 64 * call as usize)?;
    let whole = replies(alloc)?;
    Ok(
        ending.written == read
            && match ending.status {
                Status::Done => call > 0 && read == whole,
                status => status == Status::ReadFault,
            },
    )
}

#[test]
fn each_read_that_fails_ends_a_session(rt: HostRuntime) -> Result<(), Fail> {
    for call in 0..NO_CALL {
        let ending = end(&rt, rt.alloc(), (call, NO_CALL))?;
        let found = ends_at_read(rt.alloc(), &ending, call)?;
        assert!(rt; found, "read {call}");
        if ending.status == Status::Done {
            return Ok(());
        }
    }
    Err(Fail::new("a session has too many reads"))
}

/// Whether a session whose write with this number fails wrote the first bytes of the replies, some more and at most 64 more
/// than with the write before, and ended at the fault, or at its end where it has no such write.
fn ends_at_write(
    alloc: Global,
    ending: &Ending,
    call: u32,
    before: usize,
) -> Result<bool, AllocError> {
    let whole = replies(alloc)?;
    let written = ending.written.as_slice();
    if !whole.as_slice().starts_with(written) {
        return Ok(false);
    }
    let more = written.len().saturating_sub(before);
    Ok(match ending.status {
        Status::Done => call > 0 && written.len() == whole.len(),
        Status::WriteFault if call == 0 => written.is_empty(),
        status => status == Status::WriteFault && 0 < more && more <= 64,
    })
}

#[test]
fn each_write_that_fails_ends_a_session(rt: HostRuntime) -> Result<(), Fail> {
    let mut before = 0;
    for call in 0..NO_CALL {
        let ending = end(&rt, rt.alloc(), (NO_CALL, call))?;
        let found = ends_at_write(rt.alloc(), &ending, call, before)?;
        assert!(rt; found, "write {call}");
        if ending.status == Status::Done {
            return Ok(());
        }
        before = ending.written.len();
    }
    Err(Fail::new("a session has too many writes"))
}

/// So many spaces.
fn spaces(alloc: Global, count: usize) -> Result<Vec<u8>, AllocError> {
    let block = [b' '; 65_536];
    let mut bytes = Vec::with_capacity(alloc, count)?;
    for _ in 0..count / 65_536 {
        bytes.extend_from_slice(&block)?;
    }
    bytes.extend_from_slice(&block[..count % 65_536])?;
    Ok(bytes)
}

/// Whether a session of so many spaces ends so, and writes so many bytes.
fn spaces_end_so<R: Threads + Sync>(
    rt: &R,
    alloc: Global,
    count: usize,
    ending: (Status, usize),
) -> Result<bool, AllocError> {
    let source = MemSource::new(spaces(alloc, count)?, 65_536, Vec::new(alloc));
    let mut source = Box::new(alloc, source)?;
    let mut sink = sink_of(alloc, 64, NO_CALL)?;
    let status = status_of(rt, alloc, &mut *source, &mut *sink)?;
    Ok(status == ending.0 && sink.bytes().len() == ending.1)
}

#[test]
fn one_byte_too_many_ends_a_session(rt: HostRuntime) -> Result<(), Fail> {
    for (count, ending) in [
        (67_108_864, (Status::Done, 66)),
        (67_108_865, (Status::InputOver, 0)),
    ] {
        let found = spaces_end_so(&rt, rt.alloc(), count, ending)?;
        assert!(rt; found, "{count} spaces");
    }
    Ok(())
}
