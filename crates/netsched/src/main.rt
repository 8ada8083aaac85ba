//! netsched: the scheduler of a network of robotic telescopes, from lines on standard input to replies on standard
//! output.
#![tactic(auto)]

use plan_io::{Status, StdSink, StdSource, exit_code, program_words};
use session::run_session;
use std::process::ExitCode;

/// What is written on standard error, where there is something to say.
fn message(status: Status) -> Option<&'static str> {
    match status {
        Status::Words => Some("usage: netsched session < LINES | netsched workload NUMBER"),
        Status::ReadFault => Some("netsched: a read failed"),
        Status::WriteFault => Some("netsched: a write failed"),
        Status::NoMemory => Some("netsched: out of memory"),
        Status::InputOver => Some("netsched: the input has too many bytes or lines"),
        Status::Done | Status::NoDocument | Status::No | Status::NoCaller => None,
    }
}

fn main(rt: HostRuntime) -> ExitCode {
    let status = match program_words(&rt) {
        Ok(words) => {
            let mut source = StdSource::new(rt.stdin());
            let mut sink = StdSink::new(rt.stdout());
            run_session(&rt, rt.alloc(), words.as_slice(), &mut source, &mut sink)
        }
        Err(status) => status,
    };
    if let Some(text) = message(status) {
        let _ = eprintln!(rt; "{text}");
    }
    exit_code(status)
}
