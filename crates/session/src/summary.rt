//! What was replied to the lines of a workload, in one line.
ghost use Rattle.std.specs.Prelude.{◌≡◌, ◌+◌, IfOk};
ghost use Rattle.session.specs.Summary.{summary_data, summary_text, with_reply, with_line};

use desk_events::Reply;
use plan_json::{line_text, object};
use std::alloc::{AllocError, Global};

/// What was replied to some lines.
#[derive(Clone, Copy)]
pub(crate) struct Summary {
    /// The bound of the last claim that was published, or 0.
    pub bound: u64,
    /// How many lines there were.
    pub lines: u64,
    /// How many entries are refused.
    pub refused: u64,
    /// How many requests were submitted.
    pub requests: u64,
    /// The value of the last claim that was published, or 0.
    pub value: u64,
}

/// So many more. It fails only beyond 64 bits, of which no memory holds so many.
fn more(count: u64, by: usize) -> Result<u64, AllocError>
    ensures { IfOk result (λ sum. sum ≡ count + by) }
{
    count.checked_add(by as u64).ok_or(AllocError)
}

/// The summary of no line.
pub(crate) fn no_summary() -> Summary
    ensures { result ≡ record { bound = 0; lines = 0; refused = 0; requests = 0; value = 0 } }
{
    Summary {
        bound: 0,
        lines: 0,
        refused: 0,
        requests: 0,
        value: 0,
    }
}

/// The summary with a reply more.
fn with_reply(summary: Summary, reply: &Reply) -> Result<Summary, AllocError>
    ensures { IfOk result (λ found. found ≡ with_reply summary reply.now) }
{
    match reply {
        Reply::Submitted { requests, .. } => Ok(Summary {
            requests: more(summary.requests, requests.len())?,
            ..summary
        }),
        Reply::Published { claim } => Ok(Summary {
            bound: claim.bound,
            value: claim.value,
            ..summary
        }),
        Reply::Refused(_) => Ok(Summary {
            refused: more(summary.refused, 1)?,
            ..summary
        }),
        _ => Ok(summary),
    }
}

/// The summary with a line more, and its reply.
pub(crate) fn with_line(summary: Summary, reply: &Reply) -> Result<Summary, AllocError>
    ensures { IfOk result (λ found. found ≡ with_line summary reply.now) }
{
    let lines = more(summary.lines, 1)?;
    with_reply(Summary { lines, ..summary }, reply)
}

/// The summary as a line, with its newline.
#[tactic(auto, unfolding(crate::specs::Summary::summary_data))]
pub(crate) fn summary_text(alloc: Global, summary: Summary) -> Result<Vec<u8>, AllocError>
    ensures { IfOk result (λ text. text.items ≡ summary_text summary) }
{
    let object = object!(
        "bound": summary.bound,
        "lines": summary.lines,
        "refused": summary.refused,
        "requests": summary.requests,
        "value": summary.value,
    );
    line_text(alloc, &object)
}
