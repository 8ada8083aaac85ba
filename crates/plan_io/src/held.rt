//! Bytes that were read and are still to be cut into lines.
ghost use Rattle.std.specs.Prelude.{◌≡◌, ◌≢◌, ℕ, ◌+◌, ◌≤◌, ◌<◌, ◌++◌, [], length, take, drop, slice_index, IfOk, IsTrue, ◌↔◌};
ghost use Rattle.plan_io.specs.Newline.{IsFirstNewline, HasNewline};

use memchr::memchr;
use std::alloc::{AllocError, Global};
use std::marker::Model;

const NEWLINE: u8 = b'\n';

/// The index of the first newline from `from` on, or the length.
fn find_newline(bytes: &[u8], from: usize) -> usize
    requires { from ≤ length bytes.now }
    ensures from { from ≤ result }
    ensures within { result ≤ length bytes.now }
    ensures before { (k : ℕ) → from ≤ k → k < result → slice_index bytes.now k ≢ 10 }
    ensures found { result < length bytes.now → slice_index bytes.now result ≡ 10 }
{
    match memchr(NEWLINE, &bytes[from..]) {
        Some(at) => from + at,
        None => bytes.len(),
    }
}

/// Bytes in memory, taken from the front and added at the back. `newline` doesn't search again what it searched before,
/// and a byte is moved to the front at most once for each line before it.
pub(crate) struct Held {
    /// What was added and not moved away yet, with what was passed of it.
    bytes: Vec<u8>,
    /// Where what is left is moved to, in turns with `bytes`.
    spare: Vec<u8>,
    /// Where what is left begins.
    start: usize,
    /// Up to where there is no newline in what is left.
    scanned: usize,
}

impl Drop for Held {
    fn drop(self) {
        let Self {
            bytes: _,
            spare: _,
            start: _,
            scanned: _,
        } = self;
    }
}

impl Model for Held {
    ghost use Rattle.std.specs.Prelude.{drop, ◌-◌, vec_capacity, vec_len};
    ghost use Rattle.plan_io.specs.HeldSeen.{HeldSeen};

    ghost Value = { HeldSeen };

    ghost use Rattle.plan_io.specs.Scanned.{IsScanned};

    ghost view = { λ held. record { bytes = drop held.start held.bytes.items; free = vec_capacity held.bytes - vec_len held.bytes } };

    ghost invariant = { IsScanned };
}

impl Held {
    pub(crate) fn new(alloc: Global) -> Self
        ensures { result.bytes ≡ [] }
    {
        Held {
            bytes: Vec::new(alloc),
            spare: Vec::new(alloc),
            start: 0,
            scanned: 0,
        }
    }

    pub(crate) fn len(&self) -> usize
        ensures { result ≡ length self.now.bytes }
    {
        self.bytes.len() - self.start
    }

    /// How many bytes stand before the first newline.
    pub(crate) fn newline(&mut self) -> Option<usize>
        ensures first { IsFirstNewline self.old.bytes result }
        ensures same { self.new ≡ self.old }
    {
        let at = find_newline(self.bytes.as_slice(), self.scanned);
        self.scanned = at;
        if at == self.bytes.len() {
            return None;
        }
        Some(at - self.start)
    }

    /// Whether there is a newline. It searches what `newline` hasn't searched, up to the first, and keeps nothing of it.
    pub(crate) fn has_newline(&self) -> bool
        ensures { IsTrue result ↔ HasNewline self.now.bytes }
    {
        find_newline(self.bytes.as_slice(), self.scanned) < self.bytes.len()
    }

    /// The first bytes.
    pub(crate) fn front(&self, count: usize) -> &[u8]
        requires { count ≤ length self.now.bytes }
        ensures { result.now ≡ take count self.now.bytes }
    {
        let start = self.start;
        &self.bytes.as_slice()[start..start + count]
    }

    /// Drops the first bytes and the one after them.
    pub(crate) fn pass(&mut self, count: usize)
        requires { count < length self.old.bytes }
        ensures { self.new.bytes ≡ drop (count + 1) self.old.bytes }
    {
        self.start = self.start + count + 1;
        self.scanned = self.scanned.max(self.start);
    }

    /// Drops all.
    pub(crate) fn clear(&mut self)
        ensures { self.new.bytes ≡ [] }
    {
        self.bytes.clear();
        self.start = 0;
        self.scanned = 0;
    }

    /// Makes room for so many bytes more.
    pub(crate) fn make_room(&mut self, count: usize) -> Result<(), AllocError>
        ensures same { self.new.bytes ≡ self.old.bytes }
        ensures room { IfOk result (λ _. count ≤ self.new.free) }
    {
        if self.start > 0 {
            self.spare.clear();
            self.spare
                .extend_from_slice(&self.bytes.as_slice()[self.start..])?;
            std::mem::swap(&mut self.bytes, &mut self.spare);
            self.scanned -= self.start;
            self.start = 0;
        }
        self.bytes.reserve(count)
    }

    /// Adds a block for which there is room.
    pub(crate) fn add(&mut self, block: &[u8])
        requires { length block.now ≤ self.old.free }
        ensures { self.new.bytes ≡ self.old.bytes ++ block.now }
    {
        if self.bytes.extend_from_slice(block).is_err() {
            unreachable!();
        }
    }
}
