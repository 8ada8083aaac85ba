//! Where bytes go, and writing a piece whole.
ghost use Rattle.std.specs.Prelude.{ℕ, List};
ghost use Rattle.std.specs.declared.option.Option.{Option};
ghost use Rattle.plan_io.specs.Sink.{Writes, IsWriteCause, Puts, IsPutCause};

/// What one write did.
#[derive(Clone, Copy)]
pub enum WriteAnswer {
    /// So many bytes were taken, from the front of the piece.
    Took(usize),
    /// Nothing was taken, and the count of faults rose.
    Failed,
}

/// Where bytes go, in their order.
pub trait Sink {
    /// What was written, where the sink tells it. One that doesn't tell it now tells it at no later time.
    ghost written: { Self → Option (List ℕ) };

    /// How often it has failed. The count never falls, and stands still at the end of `u64`.
    ghost faults: { Self → ℕ };

    /// Takes bytes from the front of `piece`: at least one, where it isn't empty.
    fn write(&mut self, piece: &[u8]) -> WriteAnswer
        ensures bytes { Writes (written self.old) (written self.new) result piece.now }
        ensures cause { IsWriteCause (faults self.old) (faults self.new) result piece.now };
}

/// Whether a piece was written whole.
#[derive(Clone, Copy, Debug, PartialEq, Eq)]
pub enum PutAnswer {
    /// All bytes were taken.
    Done,
    /// A write failed before that: fewer bytes were taken, from the front.
    WriteFault,
}

/// Writes a piece whole, in as many writes as the sink needs, and stops at the first that fails.
pub fn put<K: Sink>(sink: &mut K, piece: &[u8]) -> PutAnswer
    ensures bytes { Puts (K.written sink.old) (K.written sink.new) result piece.now }
    ensures cause { IsPutCause (K.faults sink.old) (K.faults sink.new) result }
{
    let mut done = 0;
    while done < piece.len() {
        match sink.write(&piece[done..]) {
            WriteAnswer::Took(count) => done += count,
            WriteAnswer::Failed => return PutAnswer::WriteFault,
        }
    }
    PutAnswer::Done
}
