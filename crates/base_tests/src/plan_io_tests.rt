//! What no clause says: that a reader and a writer of std whose calls are interrupted are called again.
use plan_io::*;
use std::io;
use std::io::{ErrorKind, Read};
use std::test::Fail;

/// A reader and a writer of std whose calls are interrupted, then move one byte, and at last fail.
#[derive(Drop)]
struct Shaky {
    byte: u8,
    calls: u8,
}

impl Shaky {
    fn answer(&mut self) -> io::Result<()> {
        self.calls = self.calls.saturating_add(1);
        match self.calls {
            1 | 3 => Err(io::Error::from(ErrorKind::Interrupted)),
            2 | 4 => Ok(()),
            _ => Err(io::Error::from(ErrorKind::BrokenPipe)),
        }
    }
}

impl Read for Shaky {
    fn read(&mut self, buf: &mut [u8]) -> io::Result<usize> {
        self.answer()?;
        let size = buf.len().min(1);
        buf[..size].fill(self.byte);
        Ok(size)
    }
}

impl io::Write for Shaky {
    fn write(&mut self, buf: &[u8]) -> io::Result<usize> {
        self.answer()?;
        Ok(buf.len().min(1))
    }

    fn flush(&mut self) -> io::Result<()> {
        Ok(())
    }
}

/// How many bytes a read gives, if it doesn't fail.
fn got(source: &mut StdSource<Shaky>) -> Option<usize> {
    match source.read(&mut [0u8; 9]) {
        ReadAnswer::Got(count) => Some(count),
        ReadAnswer::Failed => None,
    }
}

#[test]
fn calls_that_were_interrupted_are_made_again(rt: HostRuntime) -> Result<(), Fail> {
    let mut source = StdSource::new(Shaky {
        byte: b'\n',
        calls: 0,
    });
    for want in [Some(1), Some(1), None] {
        assert_eq!(rt; got(&mut source), want);
    }
    let mut sink = StdSink::new(Shaky { byte: 0, calls: 0 });
    assert_eq!(rt; put(&mut sink, b"ab"), PutAnswer::Done);
    assert_eq!(rt; put(&mut sink, b"c"), PutAnswer::WriteFault);
    Ok(())
}
