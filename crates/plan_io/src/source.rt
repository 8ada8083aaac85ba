//! Where bytes come from.
ghost use Rattle.std.specs.Prelude.{ℕ, List, length};
ghost use Rattle.std.specs.declared.option.Option.{Option};
ghost use Rattle.plan_io.specs.Source.{Reads, IsReadCause};

/// What one read gave.
#[derive(Clone, Copy)]
pub enum ReadAnswer {
    /// So many bytes stand at the front of the room. None, where the room isn't empty, is the end.
    Got(usize),
    /// Nothing was taken, and the count of faults rose.
    Failed,
}

/// Where bytes come from, in their order.
pub trait Source {
    /// The bytes that are left, where the source tells them.
    ghost left: { Self → Option (List ℕ) };

    /// How often it has failed. The count never falls, and stands still at the end of `u64`.
    ghost faults: { Self → ℕ };

    /// Puts the next bytes into the front of `room`: at least one, where there is a byte and room for it.
    fn read(&mut self, room: &mut [u8]) -> ReadAnswer
        ensures bytes { Reads (left self.old) (left self.new) (length room.old) result room.new }
        ensures cause { IsReadCause (faults self.old) (faults self.new) result };
}
