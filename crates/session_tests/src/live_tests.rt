//! Sessions of several callers over a source and a sink in memory: the order of two callers' lines, which a gate holds, how often a
//! line is come to, and faults in mid-stream. What other sessions write stands in the files of cases/live, at the top of the repository.
use crate::between::Between;
use crate::script::{OPENING, PLAN, SUBMIT, replies_of_opening_then};
use plan_io::{Gate, MemSink, MemSource, NoGate, Point, Status};
use samples::{sink_of, source_of};
use session::*;
use std::alloc::{AllocError, Global};
use std::sync::Wait;
use std::sync::atomic::{AtomicU32, Ordering};
use std::test::Fail;
use std::thread::Threads;

/// The status of a session of several callers.
fn status_of<R: Threads + Wait + Sync, G: Gate>(
    rt: &R,
    alloc: Global,
    word: &str,
    source: &mut MemSource,
    sink: &mut MemSink,
    gate: &G,
) -> Result<Status, AllocError> {
    let words = vec![in alloc; String::from_str(alloc, word)?]?;
    Ok(run_live(rt, alloc, words.as_slice(), source, sink, gate))
}

/// Whether a session by this word of these lines ends so, where this call of the source and this call of the sink fail, and writes
/// the first bytes of the replies.
fn ends_so<R: Threads + Wait + Sync, G: Gate>(
    rt: &R,
    alloc: Global,
    word: &str,
    lines: &[u8],
    fails: (u32, u32),
    ending: (Status, &[u8]),
    gate: &G,
) -> Result<bool, AllocError> {
    let mut source = source_of(alloc, lines, 40, fails.0)?;
    let mut sink = sink_of(alloc, 40, fails.1)?;
    let status = status_of(rt, alloc, word, &mut source, &mut sink, gate)?;
    Ok(status == ending.0 && sink.bytes() == ending.1)
}

/// Adds a line, with its caller in front of its other members.
fn push_line(text: &mut Vec<u8>, caller: &str, line: &str) -> Result<(), AllocError> {
    text.extend_from_slice(caller.as_bytes())?;
    text.extend_from_slice(line.as_bytes().get(1..).unwrap_or(&[]))?;
    text.push(b'\n')?;
    Ok(())
}

/// What caller 0 sends, which is the opening and two plans, and then caller 1.
fn lines(alloc: Global) -> Result<Vec<u8>, AllocError> {
    let mut text = Vec::new(alloc);
    for (line, _) in OPENING {
        push_line(&mut text, ZERO, line)?;
    }
    push_line(&mut text, ZERO, PLAN)?;
    push_line(&mut text, ZERO, PLAN)?;
    push_line(&mut text, ONE, SUBMIT)?;
    Ok(text)
}

const ZERO: &str = "{\"caller\":0,";

const ONE: &str = "{\"caller\":1,";

/// The replies after the opening's: the group of caller 1 comes between the first plan's Take and its Publish.
const REPLIES: &str = "\
    {\"caller\":0,\"line\":8,\"ok\":\"taken\",\"version\":7}\n\
    {\"caller\":1,\"group\":2,\"ipp_charged\":0,\"line\":1,\"ok\":\"submitted\",\"requests\":[2],\"version\":7}\n\
    {\"asked\":7,\"caller\":0,\"line\":8,\"newer\":8,\"no\":31,\"refused\":\"Stale\",\"version\":8}\n\
    {\"caller\":0,\"line\":9,\"ok\":\"taken\",\"version\":8}\n\
    {\"caller\":0,\"claim\":{\"bound\":350000,\"placements\":[[1,0,0],[2,0,1]],\"prices\":[25000,25000],\"value\":100000},\"line\":9,\"ok\":\"published\",\"version\":8}\n";

impl Gate for Between {
    fn pass(&self, point: Point) {
        match point {
            Point::BeforeLine { caller: 1, .. } => self.wait(&self.taken),
            Point::AfterTake { line: 8, .. } => {
                self.taken.fetch_add(1, Ordering::SeqCst);
                self.wait(&self.replied);
            }
            Point::AfterLine { caller: 1, .. } => {
                self.replied.fetch_add(1, Ordering::SeqCst);
            }
            _ => (),
        }
    }
}

#[test]
fn a_line_comes_between_a_take_and_its_publish(rt: HostRuntime) -> Result<(), Fail> {
    let lines = lines(rt.alloc())?;
    let replies = replies_of_opening_then(rt.alloc(), REPLIES)?;
    for word in ["live", "passes"] {
        let gate = Between::new();
        let found = ends_so(
            &rt,
            rt.alloc(),
            word,
            lines.as_slice(),
            (99, 99),
            (Status::Done, replies.as_slice()),
            &gate,
        )?;
        assert_eq!(rt; gate.late.load(Ordering::SeqCst), 0, "{word}");
        assert!(rt; found, "{word}");
    }
    Ok(())
}

/// Three lines of one caller, 40 bytes each with the newline.
const SHORT: &[u8] = b"\
    {\"caller\":5,\"do\":\"balances\"           }\n\
    {\"caller\":5,\"do\":\"balances\"           }\n\
    {\"caller\":5,\"do\":\"balances\"           }\n";

const REFUSED: &[u8] = b"\
    {\"caller\":5,\"line\":1,\"no\":20,\"refused\":\"NotOpened\",\"version\":0}\n\
    {\"caller\":5,\"line\":2,\"no\":20,\"refused\":\"NotOpened\",\"version\":0}\n\
    {\"caller\":5,\"line\":3,\"no\":20,\"refused\":\"NotOpened\",\"version\":0}\n";

#[test]
fn faults_end_a_session_of_callers(rt: HostRuntime) -> Result<(), Fail> {
    // Three reads give the lines, and the fourth none. A write takes 40 bytes.
    for (fails, status, len) in [
        ((9, 99), Status::Done, REFUSED.len()),
        ((2, 99), Status::ReadFault, 0),
        ((3, 99), Status::ReadFault, 0),
        ((9, 0), Status::WriteFault, 0),
        ((9, 3), Status::WriteFault, 120),
    ] {
        let wanted = &REFUSED[..len.min(REFUSED.len())];
        let found = ends_so(
            &rt,
            rt.alloc(),
            "live",
            SHORT,
            fails,
            (status, wanted),
            &NoGate,
        )?;
        assert!(rt; found, "calls {} and {}", fails.0, fails.1);
    }
    Ok(())
}

/// How many lines callers were about to do.
#[derive(Drop)]
struct Begun {
    lines: AtomicU32,
}

impl Gate for Begun {
    fn pass(&self, point: Point) {
        if let Point::BeforeLine { .. } = point {
            self.lines.fetch_add(1, Ordering::SeqCst);
        }
    }
}

#[test]
fn passes_come_to_each_line_once(rt: HostRuntime) -> Result<(), Fail> {
    let gate = Begun {
        lines: AtomicU32::new(0),
    };
    let ending = (Status::Done, REFUSED);
    let found = ends_so(&rt, rt.alloc(), "passes", SHORT, (99, 99), ending, &gate)?;
    assert_eq!(rt; gate.lines.load(Ordering::SeqCst), 3);
    assert!(rt; found);
    Ok(())
}
