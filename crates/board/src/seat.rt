// The right to use a board, and what whoever has it knows.

ghost use Rattle.std.specs.Prelude.{◌≡◌, ◌<◌, []};

use atomic_table::Seat;
use std::collections::LinkedList;

/// What a seat knows of its board. Contracts speak of it, and no value of it is ever made.
pub struct SeatView {
    /// The least bound that was given by the seat or a seat joined into it; the greatest `u64` where none was.
    pub least_given: u64,
    /// The greatest value that was given by the seat or a seat joined into it; 0 where none was. That of a board's first
    /// seat begins as the board's first value.
    pub greatest_given: u64,
    /// The lowest bound that was given or seen.
    pub lowest_seen: u64,
    /// The greatest value that was given or seen.
    pub greatest_seen: u64,
    /// How many seats were joined into this one, itself counted.
    pub seats: u64,
    /// How many seats may still be split off.
    pub tickets: u64,
    /// The numbers that were claimed by the seat and by those joined into it.
    pub claims: LinkedList<u64>,
}

/// The right to use a board: it is made by `Board::new` or `Board::split`, and can't be copied. It has no bytes and no
/// lifetime, and may go to another thread. A board can't be closed before all its seats are joined into one; one that is
/// dropped never is.
#[derive(Drop)]
pub struct BoardSeat {
    pub(crate) inner: Seat<u8, SeatView>,
    ghost live: { 0 < inner.me.0.seats },
    ghost no_slot: { inner.me.1 ≡ [] },
}
