// Sources and sinks in memory of which one call fails. They are boxed, so that no proof looks into them.

ghost use Rattle.std.specs.Prelude.{◌<◌};

use plan_io::{MemSink, MemSource};
use std::alloc::{AllocError, Global};

/// How many bytes a sink has room for.
const ROOM: usize = 2_000;

/// A source of these bytes, so many a call, of which the call with this number fails.
pub fn source_of(
    alloc: Global,
    bytes: &[u8],
    most: usize,
    failing: u32,
) -> Result<Box<MemSource>, AllocError>
    requires { 0 < most }
{
    let failing = Vec::from_slice(alloc, &[failing])?;
    let bytes = Vec::from_slice(alloc, bytes)?;
    Ok(Box::new(alloc, MemSource::new(bytes, most, failing))?)
}

/// A sink with room for 2,000 bytes that takes so many a call, and fails the call with this number.
pub fn sink_of(alloc: Global, most: usize, failing: u32) -> Result<Box<MemSink>, AllocError>
    requires { 0 < most }
{
    let failing = Vec::from_slice(alloc, &[failing])?;
    Ok(Box::new(alloc, MemSink::new(alloc, most, ROOM, failing)?)?)
}
