// How a session over a source and a sink ends.

use plan_io::{Sink, Source, Status};
use session::run_session;
use std::alloc::{AllocError, Global};
use std::thread::Threads;

/// The status of a session.
pub fn status_of<R: Threads + Sync, S: Source, K: Sink>(
    rt: &R,
    alloc: Global,
    source: &mut S,
    sink: &mut K,
) -> Result<Status, AllocError> {
    let words = vec![in alloc; String::from_str(alloc, "session")?]?;
    Ok(run_session(rt, alloc, words.as_slice(), source, sink))
}
