//! A source and a sink in memory that move few bytes a call and fail where they are told to.
ghost use Rattle.std.specs.Prelude.{◌≡◌, ◌<◌, [], length, IfOk, Some};
ghost use Rattle.plan_io.specs.Source.{Reads, IsReadCause};
ghost use Rattle.plan_io.specs.Sink.{Writes, IsWriteCause};
ghost use Rattle.plan_io.specs.Memory.{MemReads, MemWrites};

use super::block::{Kept, Unread};
use super::calls::Calls;
use super::sink::{Sink, WriteAnswer};
use super::source::{ReadAnswer, Source};
use std::alloc::{AllocError, Global};
use std::marker::Model;

/// A source over bytes in memory that gives at most `most` bytes a call, and fails the calls whose numbers, from
/// 0, are listed.
pub struct MemSource {
    unread: Unread,
    most: usize,
    calls: Calls,
}

impl Drop for MemSource {
    fn drop(self) {
        let Self {
            unread: _,
            most: _,
            calls: _,
        } = self;
    }
}

impl Model for MemSource {
    ghost use Rattle.std.specs.Prelude.{◌<◌};
    ghost use Rattle.plan_io.specs.Memory.{MemSourceSeen};

    ghost Value = { MemSourceSeen };

    ghost view = { λ source. record { left = source.unread; most = source.most; calls = source.calls } };

    ghost invariant = { λ source. 0 < source.most };
}

impl MemSource {
    /// A source that gives these bytes.
    pub fn new(bytes: Vec<u8>, most: usize, failing: Vec<u32>) -> Self
        requires { 0 < most }
        ensures { result ≡ record {
          left = bytes.items;
          most = most;
          calls = record { failing = failing.items; made = 0; faults = 0 };
        } }
    {
        MemSource {
            unread: Unread::new(bytes),
            most,
            calls: Calls::new(failing),
        }
    }
}

impl Source for MemSource {
    ghost left = { λ source. Some source.left };

    ghost faults = { λ source. source.calls.faults };

    fn read(&mut self, room: &mut [u8]) -> ReadAnswer
        ensures bytes { Reads (Some self.old.left) (Some self.new.left) (length room.old) result room.new }
        ensures cause { IsReadCause self.old.calls.faults self.new.calls.faults result }
        ensures exact { MemReads self.old (length room.old) result self.new }
    {
        if self.calls.begin() {
            self.calls.fail();
            return ReadAnswer::Failed;
        }
        let size = room.len().min(self.most);
        ReadAnswer::Got(self.unread.give(&mut room[..size]))
    }
}

/// A sink in memory that takes at most `most` bytes a call, and fails the calls whose numbers, from 0, are listed
/// and those for which it has no room left.
pub struct MemSink {
    kept: Kept,
    most: usize,
    calls: Calls,
}

impl Drop for MemSink {
    fn drop(self) {
        let Self {
            kept: _,
            most: _,
            calls: _,
        } = self;
    }
}

impl Model for MemSink {
    ghost use Rattle.std.specs.Prelude.{◌<◌};
    ghost use Rattle.plan_io.specs.Memory.{MemSinkSeen};

    ghost Value = { MemSinkSeen };

    ghost view = { λ sink. record { bytes = sink.kept.bytes; room = sink.kept.room; most = sink.most; calls = sink.calls } };

    ghost invariant = { λ sink. 0 < sink.most };
}

impl MemSink {
    /// A sink with room for `room` bytes. It takes memory for them now, and none later. Fails only for want of memory.
    pub fn new(
        alloc: Global,
        most: usize,
        room: usize,
        failing: Vec<u32>,
    ) -> Result<Self, AllocError>
        requires { 0 < most }
        ensures { IfOk result (λ sink. sink ≡ record {
          bytes = [];
          room = room;
          most = most;
          calls = record { failing = failing.items; made = 0; faults = 0 };
        }) }
    {
        Ok(MemSink {
            kept: Kept::new(alloc, room)?,
            most,
            calls: Calls::new(failing),
        })
    }

    /// The bytes that were written.
    pub fn bytes(&self) -> &[u8]
        ensures { result.now ≡ self.now.bytes }
    {
        self.kept.as_slice()
    }
}

impl Sink for MemSink {
    ghost written = { λ sink. Some sink.bytes };

    ghost faults = { λ sink. sink.calls.faults };

    fn write(&mut self, piece: &[u8]) -> WriteAnswer
        ensures bytes { Writes (Some self.old.bytes) (Some self.new.bytes) result piece.now }
        ensures cause { IsWriteCause self.old.calls.faults self.new.calls.faults result piece.now }
        ensures exact { MemWrites self.old piece.now result self.new }
    {
        let fails = self.calls.begin();
        let free = self.kept.free();
        if fails || free == 0 {
            self.calls.fail();
            return WriteAnswer::Failed;
        }
        let count = piece.len().min(self.most).min(free);
        self.kept.keep(&piece[..count]);
        WriteAnswer::Took(count)
    }
}
