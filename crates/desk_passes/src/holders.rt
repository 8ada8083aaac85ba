// What a thread has of a shared desk.

ghost use Rattle.std.specs.Prelude.{◌≡◌, [], Some, None};

use crate::seen::PassView;
use atomic_table::Seat;
use desk_book::Book;
use plan_base::Taken;

/// The right to make the passes of a desk and to close it. It is made with the desk and can't be copied; it has no bytes and
/// no lifetime.
#[derive(Drop)]
pub struct Root {
    pub(crate) inner: Seat<Option<Book>, PassView>,
    ghost first: { inner.id ≡ 0 },
    ghost no_slot: { inner.me.1 ≡ [] },
    ghost no_turn: { inner.me.0.turn ≡ None },
    ghost nothing_told: { inner.me.0.told ≡ [] },
    ghost looked: { inner.me.0.back ≡ None },
}

/// The right to make the calls of one caller. It can't be copied and may go to another thread; each caller gets one.
#[derive(Drop)]
pub struct Pass {
    pub(crate) inner: Seat<Option<Book>, PassView>,
    pub(crate) caller: u8,
    ghost mine: { inner.me.0.caller ≡ Some caller },
    ghost no_slot: { inner.me.1 ≡ [] },
    ghost no_turn: { inner.me.0.turn ≡ None },
    ghost nothing_told: { inner.me.0.told ≡ [] },
    ghost no_passes: { inner.me.0.passes ≡ [] },
}

impl Pass {
    ghost use Rattle.desk_passes.specs.Calls.{view};

    /// Whose calls it makes. Callers are counted from 0.
    pub fn caller(&self) -> u8
        ensures { (view self.now).caller ≡ Some result }
    {
        self.caller
    }
}

/// What a pass has seen, to be handed to another one.
#[derive(Drop)]
pub struct Note {
    pub(crate) inner: Seat<Option<Book>, PassView>,
    ghost nobody: { inner.me.0.caller ≡ None },
    ghost no_slot: { inner.me.1 ≡ [] },
    ghost no_passes: { inner.me.0.passes ≡ [] },
}

/// Where the entry of a call stands.
#[derive(Clone, Copy, Debug, PartialEq, Eq)]
pub struct Receipt {
    /// How many entries of the history stand before it.
    pub place: u64,
}

/// What a call did.
#[derive(Drop)]
pub enum CallAnswer {
    /// The line is done and replied to.
    Replied(Receipt),
    /// The line asks for a plan of an opened desk, and this was taken for it.
    Taken(Taken, Receipt),
}
