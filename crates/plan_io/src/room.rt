//! Room for one read of a source.
ghost use Rattle.std.specs.Prelude.{◌≡◌, ◌≤◌, length, vec_len, IfOk};
ghost use Rattle.plan_io.specs.Limits.{most_read};
ghost use Rattle.plan_io.specs.Source.{Reads, IsReadCause};

use super::source::{ReadAnswer, Source};
use std::alloc::{AllocError, Global};

/// The most bytes of one read.
pub(crate) const ROOM: usize = 65_536;

/// Room for one read.
pub(crate) fn read_room(alloc: Global) -> Result<Vec<u8>, AllocError>
    ensures { IfOk result (λ room. vec_len room ≡ most_read) }
{
    vec![in alloc; 0u8; ROOM]
}

/// Reads at most `size` bytes into the front of the room.
pub(crate) fn read_block<S: Source>(source: &mut S, room: &mut [u8], size: usize) -> ReadAnswer
    requires { size ≤ length room.old }
    ensures bytes { Reads (S.left source.old) (S.left source.new) size result room.new }
    ensures cause { IsReadCause (S.faults source.old) (S.faults source.new) result }
{
    source.read(&mut room[..size])
}
