// How runs over sources and sinks that fail end.

use plan_io::{MemSink, Status};

/// Whether this status was to come, with so many first bytes of the reply written.
pub(crate) fn is_ending(
    status: Status,
    sink: &MemSink,
    reply: &[u8],
    ending: (Status, usize),
) -> bool {
    status == ending.0 && sink.bytes() == &reply[..ending.1.min(reply.len())]
}
