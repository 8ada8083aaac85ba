//! A source and a sink in memory that never fail.
ghost use Rattle.std.specs.Prelude.{◌≡◌, [], length, min, false, IfOk, Some};
ghost use Rattle.plan_io.specs.Source.{Reads, IsReadCause};
ghost use Rattle.plan_io.specs.Sink.{Writes, IsWriteCause};
ghost use Rattle.plan_io.specs.Steady.{Keeps, told};

use super::block::{Kept, Unread};
use super::sink::{Sink, WriteAnswer};
use super::source::{ReadAnswer, Source};
use std::alloc::{AllocError, Global};
use std::marker::Model;

/// A source over bytes in memory that never fails. Contracts see it as the bytes that are left.
pub struct SteadySource {
    unread: Unread,
}

impl Drop for SteadySource {
    fn drop(self) {
        let Self { unread: _ } = self;
    }
}

impl Model for SteadySource {
    ghost use Rattle.std.specs.Prelude.{List, ℕ};

    ghost Value = { List ℕ };

    ghost view = { λ source. source.unread };
}

impl SteadySource {
    /// A source that gives these bytes.
    pub fn new(bytes: Vec<u8>) -> Self
        ensures { result ≡ bytes.items }
    {
        SteadySource {
            unread: Unread::new(bytes),
        }
    }
}

impl Source for SteadySource {
    ghost left = { λ source. Some source };

    ghost faults = { λ _. 0 };

    fn read(&mut self, room: &mut [u8]) -> ReadAnswer
        ensures bytes { Reads (Some self.old) (Some self.new) (length room.old) result room.new }
        ensures cause { IsReadCause 0 0 result }
        ensures fills { result ≡ ReadAnswer.Got (min (length room.old) (length self.old)) }
    {
        ReadAnswer::Got(self.unread.give(room))
    }
}

/// A sink in memory that never fails. It keeps the first `room` bytes, and takes and drops those after them.
/// It tells what was written as long as it has dropped none.
pub struct SteadySink {
    kept: Kept,
    over: bool,
}

impl Drop for SteadySink {
    fn drop(self) {
        let Self { kept: _, over: _ } = self;
    }
}

impl Model for SteadySink {
    ghost use Rattle.std.specs.Prelude.{◌≡◌, true, length};
    ghost use Rattle.plan_io.specs.Steady.{SteadySinkSeen};

    ghost Value = { SteadySinkSeen };

    ghost view = { λ sink. record { bytes = sink.kept.bytes; room = sink.kept.room; over = sink.over } };

    ghost invariant = { λ sink. sink.over ≡ true → length sink.kept.bytes ≡ sink.kept.room };
}

impl SteadySink {
    /// A sink that keeps at most `room` bytes. It takes memory for them now, and none later. Fails only for want of memory.
    pub fn new(alloc: Global, room: usize) -> Result<Self, AllocError>
        ensures { IfOk result (λ sink. sink ≡ record { bytes = []; room = room; over = false }) }
    {
        Ok(SteadySink {
            kept: Kept::new(alloc, room)?,
            over: false,
        })
    }

    /// The bytes that it keeps: all that were written, or the first `room` of them.
    pub fn bytes(&self) -> &[u8]
        ensures { result.now ≡ self.now.bytes }
    {
        self.kept.as_slice()
    }
}

impl Sink for SteadySink {
    ghost written = { told };

    ghost faults = { λ _. 0 };

    fn write(&mut self, piece: &[u8]) -> WriteAnswer
        ensures bytes { Writes (told self.old) (told self.new) result piece.now }
        ensures cause { IsWriteCause 0 0 result piece.now }
        ensures all { result ≡ WriteAnswer.Took (length piece.now) }
        ensures keeps { Keeps self.old piece.now self.new }
    {
        let count = piece.len().min(self.kept.free());
        self.kept.keep(&piece[..count]);
        if count < piece.len() {
            self.over = true;
        }
        WriteAnswer::Took(piece.len())
    }
}
