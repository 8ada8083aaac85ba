//! Reading a source to its end.
ghost use Rattle.std.specs.Prelude.{◌+◌, ◌^◌, ◌<◌, ◌≤◌, length, IfOk, OnErr};
ghost use Rattle.plan_io.specs.Limits.{most_read};
ghost use Rattle.plan_io.specs.Whole.{IsWholeTurn, IsWholeTurnCause, ReadsWhole, IsWholeCause, StopsReading};

use super::byte_list::ByteList;
use super::room::{ROOM, read_block, read_room};
use super::source::{ReadAnswer, Source};
use std::alloc::{AllocError, Global};

/// What reading a source to its end gave.
#[derive(Drop)]
pub enum WholeAnswer {
    /// All bytes that the source gave, up to its end.
    Bytes(ByteList),
    /// A read failed.
    ReadFault,
    /// More bytes came than the limit allows.
    InputOver,
}

/// What one turn of reading gave.
enum Turn {
    More,
    End,
    Failed,
}

/// Reads at most `size` bytes once, and adds to `bytes` what came.
fn read_more<S: Source>(
    source: &mut S,
    room: &mut [u8],
    size: usize,
    bytes: &mut Vec<u8>,
) -> Result<Turn, AllocError>
    requires some { 0 < size }
    requires room { size ≤ length room.old }
    ensures turn { IfOk result (λ turn.
        IsWholeTurn (S.left source.old) (S.left source.new) size bytes.old.items bytes.new.items turn) }
    ensures cause { IfOk result (λ turn. IsWholeTurnCause (S.faults source.old) (S.faults source.new) turn) }
    ensures err { OnErr result
        (StopsReading (S.left source.old) (S.left source.new) size (S.faults source.old) (S.faults source.new)) }
{
    match read_block(source, room, size) {
        ReadAnswer::Got(count) => {
            if count == 0 {
                return Ok(Turn::End);
            }
            bytes.extend_from_slice(&room[..count])?;
            Ok(Turn::More)
        }
        ReadAnswer::Failed => Ok(Turn::Failed),
    }
}

/// How many bytes a read asks for where so many are allowed: all of them, and one to see whether there are more.
fn read_size(allowed: u64) -> usize
    ensures some { 0 < result }
    ensures room { result ≤ most_read }
    ensures within { result ≤ allowed + 1 }
{
    allowed.saturating_add(1).min(ROOM as u64) as usize
}

/// Reads a source to its end, where it gives at most `most_bytes` bytes. It reads by blocks, and takes at most one byte
/// more than that, with the answer `InputOver`. Fails only for want of memory, and then the bytes that were taken are lost.
pub fn read_whole<S: Source>(
    alloc: Global,
    source: &mut S,
    most_bytes: u64,
) -> Result<WholeAnswer, AllocError>
    requires { most_bytes < 2 ^ 32 }
    ensures whole { IfOk result (λ answer. ReadsWhole (S.left source.old) (S.left source.new) most_bytes answer) }
    ensures cause { IfOk result (λ answer. IsWholeCause (S.faults source.old) (S.faults source.new) answer) }
    ensures err { OnErr result
        (StopsReading (S.left source.old) (S.left source.new) (most_bytes + 1) (S.faults source.old) (S.faults source.new)) }
{
    let mut bytes = Vec::new(alloc);
    let mut room = read_room(alloc)?;
    for _turn in 0..most_bytes + 1 {
        let size = read_size(most_bytes - bytes.len() as u64);
        match read_more(source, room.as_mut_slice(), size, &mut bytes)? {
            Turn::More => {
                if bytes.len() as u64 > most_bytes {
                    return Ok(WholeAnswer::InputOver);
                }
            }
            Turn::End => return Ok(WholeAnswer::Bytes(ByteList::from(bytes))),
            Turn::Failed => return Ok(WholeAnswer::ReadFault),
        }
    }
    unreachable!()
}
