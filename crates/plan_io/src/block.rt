//! Bytes in memory: those that are still to be given, and those that were kept.
ghost use Rattle.std.specs.Prelude.{◌≡◌, ◌+◌, ◌-◌, ◌≤◌, [], ◌++◌, length, take, drop, min, IfOk};

use std::alloc::{AllocError, Global};
use std::marker::Model;

/// Bytes that are given from the front, which contracts see as those that are left.
#[derive(Drop)]
pub(crate) struct Unread {
    bytes: Vec<u8>,
    start: usize,
}

impl Model for Unread {
    ghost use Rattle.std.specs.Prelude.{List, ℕ, ◌≤◌, drop, vec_len};

    ghost Value = { List ℕ };

    ghost view = { λ unread. drop unread.start unread.bytes.items };

    ghost invariant = { λ unread. unread.start ≤ vec_len unread.bytes };
}

impl Unread {
    pub(crate) fn new(bytes: Vec<u8>) -> Self
        ensures { result ≡ bytes.items }
    {
        Unread { bytes, start: 0 }
    }

    /// Gives as many bytes as there are and as there is room for, and says how many.
    pub(crate) fn give(&mut self, room: &mut [u8]) -> usize
        ensures count { result ≡ min (length room.old) (length self.old) }
        ensures given { self.old ≡ take result room.new ++ self.new }
        ensures rest { self.new ≡ drop result self.old }
    {
        let rest = &self.bytes.as_slice()[self.start..];
        let count = room.len().min(rest.len());
        room[..count].copy_from_slice(&rest[..count]);
        self.start += count;
        count
    }
}

/// Bytes that are kept at the back, in room that was made at the start.
#[derive(Drop)]
pub(crate) struct Kept {
    bytes: Vec<u8>,
    room: usize,
}

impl Model for Kept {
    ghost use Rattle.std.specs.Prelude.{◌≤◌, vec_len, vec_capacity};
    ghost use Rattle.plan_io.specs.Kept.{KeptSeen};

    ghost Value = { KeptSeen };

    ghost view = { λ kept. record { bytes = kept.bytes.items; room = kept.room } };

    ghost invariant = { λ kept. (vec_len kept.bytes ≤ kept.room) × (kept.room ≤ vec_capacity kept.bytes) };
}

impl Kept {
    /// Makes room for so many bytes.
    pub(crate) fn new(alloc: Global, room: usize) -> Result<Self, AllocError>
        ensures { IfOk result (λ kept. kept ≡ record { bytes = []; room = room }) }
    {
        Ok(Kept {
            bytes: Vec::with_capacity(alloc, room)?,
            room,
        })
    }

    pub(crate) fn as_slice(&self) -> &[u8]
        ensures { result.now ≡ self.now.bytes }
    {
        self.bytes.as_slice()
    }

    /// For how many bytes there is room left.
    pub(crate) fn free(&self) -> usize
        ensures free { result ≡ self.now.room - length self.now.bytes }
        ensures within { length self.now.bytes ≤ self.now.room }
    {
        self.room - self.bytes.len()
    }

    /// Keeps a piece for which there is room.
    pub(crate) fn keep(&mut self, piece: &[u8])
        requires { length self.old.bytes + length piece.now ≤ self.old.room }
        ensures { self.new ≡ record self.old { bytes = self.old.bytes ++ piece.now } }
    {
        if self.bytes.extend_from_slice(piece).is_err() {
            unreachable!();
        }
    }
}
