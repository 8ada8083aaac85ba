// The desk that callers share.

ghost use Rattle.std.specs.Prelude.{◌≡◌};

use crate::rule::DeskRule;
use crate::seen::PassView;
use atomic_table::Table;
use desk_book::Book;
use std::alloc::Global;

/// The place of the word that counts the entries.
pub(crate) const COUNT: usize = 0;

/// The place of the word that is 1 while somebody has the turn, else 0.
pub(crate) const TURN: usize = 1;

/// A desk that callers share: each calls its lines from a thread of its own, through a pass. Threads use it by a reference.
#[derive(Drop)]
pub struct SharedDesk {
    pub(crate) table: Table<Option<Book>, PassView, u8, DeskRule, Global>,
    ghost two_words: { table.shared.table_id.words ≡ 2 },
    ghost one_slot: { table.shared.table_id.slots ≡ 1 },
}
