//! std's readers and writers as a source and a sink: the edge to the system.
ghost use Rattle.std.specs.Prelude.{◌≡◌, length, None};
ghost use Rattle.plan_io.specs.Source.{Reads, IsReadCause};
ghost use Rattle.plan_io.specs.Sink.{Writes, IsWriteCause, Passes};
ghost use Rattle.plan_io.specs.Adapters.{reader_of, read_errors, errors_after_read};
ghost use Rattle.plan_io.specs.Adapters.{writer_of, write_errors, errors_after_write};

use super::sink::{Sink, WriteAnswer};
use super::source::{ReadAnswer, Source};
use std::io::{ErrorKind, Read, Write};

/// Any reader of std, with a count of its errors. Of what is left it tells what the reader tells, which at the
/// system's own readers is nothing.
#[derive(Drop)]
pub struct StdSource<I> {
    reader: I,
    faults: u64,
}

impl<I> StdSource<I> {
    /// A source over this reader, with the count 0.
    pub fn new(reader: I) -> Self
        ensures reader { reader_of result ≡ reader }
        ensures faults { read_errors result ≡ 0 }
    {
        StdSource { reader, faults: 0 }
    }
}

impl<I: Read> Source for StdSource<I> {
    ghost left = { λ source. I.remaining (reader_of source) };

    ghost faults = { read_errors };

    /// A call that was interrupted, as by a signal, is made again, as std's own loops do, and counts as no fault. A
    /// reader that is interrupted 2^64 - 1 times in a row has failed.
    fn read(&mut self, room: &mut [u8]) -> ReadAnswer
        ensures bytes { Reads (I.remaining (reader_of self.old)) (I.remaining (reader_of self.new)) (length room.old) result room.new }
        ensures cause { IsReadCause (read_errors self.old) (read_errors self.new) result }
        ensures errors { read_errors self.new ≡ errors_after_read (read_errors self.old) result }
    {
        for _call in 0..u64::MAX {
            match self.reader.read(room) {
                Ok(count) => return ReadAnswer::Got(count),
                Err(error) => {
                    if error.kind() != ErrorKind::Interrupted {
                        break;
                    }
                }
            }
        }
        self.faults = self.faults.saturating_add(1);
        ReadAnswer::Failed
    }
}

/// Any writer of std, with a count of its errors and of the writes that took no byte of some. It tells nothing
/// of what was written.
#[derive(Drop)]
pub struct StdSink<O> {
    writer: O,
    faults: u64,
}

impl<O> StdSink<O> {
    /// A sink over this writer, with the count 0.
    pub fn new(writer: O) -> Self
        ensures writer { writer_of result ≡ writer }
        ensures faults { write_errors result ≡ 0 }
    {
        StdSink { writer, faults: 0 }
    }
}

impl<O: Write> Sink for StdSink<O> {
    ghost written = { λ _. None };

    ghost faults = { write_errors };

    /// A call that was interrupted, as by a signal, is made again, as std's own loops do, and counts as no fault. A
    /// writer that is interrupted 2^64 - 1 times in a row has failed.
    fn write(&mut self, piece: &[u8]) -> WriteAnswer
        ensures bytes { Writes None None result piece.now }
        ensures cause { IsWriteCause (write_errors self.old) (write_errors self.new) result piece.now }
        ensures errors { write_errors self.new ≡ errors_after_write (write_errors self.old) result }
        ensures passes { Passes (O.contents (writer_of self.old)) (O.contents (writer_of self.new)) result piece.now }
    {
        for _call in 0..u64::MAX {
            match self.writer.write(piece) {
                Ok(count) => {
                    if count > 0 || piece.is_empty() {
                        return WriteAnswer::Took(count);
                    }
                    break;
                }
                Err(error) => {
                    if error.kind() != ErrorKind::Interrupted {
                        break;
                    }
                }
            }
        }
        self.faults = self.faults.saturating_add(1);
        WriteAnswer::Failed
    }
}
