//! Replies that are gathered before they are written.
ghost use Rattle.std.specs.Prelude.{◌≡◌, []};
ghost use Rattle.plan_io.specs.Sink.{Puts, IsPutCause};
ghost use Rattle.session.specs.Session.{IsWrittenOn};

use plan_io::{PutAnswer, Sink, put};

/// Replies are written once they have so many bytes.
pub(crate) const GATHERED: usize = 65_536;

/// Writes the replies, and keeps none.
pub(crate) fn write_replies<K: Sink>(sink: &mut K, replies: &mut Vec<u8>) -> PutAnswer
    ensures bytes { Puts (K.written sink.old) (K.written sink.new) result replies.old.items }
    ensures cause { IsPutCause (K.faults sink.old) (K.faults sink.new) result }
    ensures none { replies.new.items ≡ [] }
{
    let answer = put(sink, replies.as_slice());
    replies.clear();
    answer
}

/// Writes the replies where they are many.
pub(crate) fn write_many<K: Sink>(sink: &mut K, replies: &mut Vec<u8>) -> PutAnswer
    ensures bytes { IsWrittenOn (K.written sink.old) (K.written sink.new) result replies.old.items replies.new.items }
    ensures cause { IsPutCause (K.faults sink.old) (K.faults sink.new) result }
{
    if replies.len() >= GATHERED {
        return write_replies(sink, replies);
    }
    PutAnswer::Done
}
