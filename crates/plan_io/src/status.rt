//! How a program's run ends.
ghost use Rattle.std.specs.Prelude.{◌≡◌};
ghost use Rattle.plan_io.specs.Exit.{status_number};

/// How a run ended. The number of a status is the program's exit status.
#[derive(Clone, Copy, PartialEq, Eq)]
pub enum Status {
    /// Everything was written, and the input was read to its end; a workload reads none.
    Done = 0,
    /// The words aren't a defined list; nothing was read or written.
    Words = 1,
    /// A read failed.
    ReadFault = 2,
    /// A write failed.
    WriteFault = 3,
    /// There was no memory left.
    NoMemory = 4,
    /// The input has more bytes or more lines than it may have.
    InputOver = 5,
    /// The document that was to be checked was refused.
    NoDocument = 6,
    /// The claim that was to be checked isn't certified.
    No = 7,
    /// A line of a session with several callers doesn't name one.
    NoCaller = 8,
}

impl Status {
    /// The exit status, 0 to 8.
    pub fn number(self) -> u8
        ensures { result ≡ status_number self }
    {
        self as u8
    }
}
