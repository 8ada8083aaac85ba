//! netsched_live: a desk that eight callers share, from lines on standard input to replies on standard output.
#![tactic(auto)]

use plan_io::{NoGate, Status, StdSink, StdSource, exit_code, program_words};
use session::run_live;
use std::process::ExitCode;

/// What is written on standard error, where there is something to say.
fn message(status: Status) -> Option<&'static str> {
    match status {
        Status::Words => Some("usage: netsched_live live | passes < LINES"),
        Status::ReadFault => Some("netsched_live: a read failed"),
        Status::WriteFault => Some("netsched_live: a write failed"),
        Status::NoMemory => Some("netsched_live: out of memory"),
        Status::InputOver => Some("netsched_live: the input has too many bytes or lines"),
        Status::Done | Status::NoDocument | Status::No | Status::NoCaller => None,
    }
}

fn main(rt: HostRuntime) -> ExitCode {
    let status = match program_words(&rt) {
        Ok(words) => {
            let mut source = StdSource::new(rt.stdin());
            let mut sink = StdSink::new(rt.stdout());
            let words = words.as_slice();
            run_live(&rt, rt.alloc(), words, &mut source, &mut sink, &NoGate)
        }
        Err(status) => status,
    };
    if let Some(text) = message(status) {
        let _ = eprintln!(rt; "{text}");
    }
    exit_code(status)
}
