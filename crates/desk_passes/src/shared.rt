// A desk's passes and notes, and its end.

ghost use Rattle.std.specs.Prelude.{◌≡◌, ◌≢◌, ℕ, [], length, Some, IfOk};
ghost use Rattle.desk_book.specs.Seen.{empty_book};
ghost use Rattle.desk_passes.specs.declared.seen.PassPlace.TheVariants.{NotMade, Out};
ghost use Rattle.desk_passes.specs.Seen.{log_of, of_caller, BeginsWith, EachHasEntry};
ghost use Rattle.desk_passes.specs.Knowing.{SeesHistory};
ghost use Rattle.desk_passes.specs.Rule.{place_of, EachIsBack};
ghost use Rattle.desk_passes.specs.Steps.{first_view, new_pass, with_back, with_pass_out};
ghost use Rattle.desk_passes.specs.Calls.{
  callers_of,
  IsRootOf,
  IsPassOf,
  IsNoteOf,
  root_view,
  view,
  note_view,
  SeesMore,
};

use crate::desk::{COUNT, SharedDesk};
use crate::holders::{Note, Pass, Root};
use crate::rule::{Look, LookAsRoot, MakeNote, MakePass, Naming, TakeNote, TakePass};
use atomic_table::{Refused, Table};
use desk_book::Book;
use std::alloc::{AllocError, Global};
use std::marker::Brand;

impl SharedDesk {
    /// The desk of a book with no line, and its root. Fails only for want of memory.
    pub fn new(alloc: Global, book: Book) -> Result<(SharedDesk, Root), AllocError>
        requires { book ≡ empty_book (length book.scripts) }
        ensures callers { IfOk result (λ made. callers_of made.0 ≡ length book.scripts) }
        ensures root { IfOk result (λ made. IsRootOf made.0 made.1) }
        ensures first { IfOk result (λ made. root_view made.1 ≡ first_view (length book.scripts)) }
    {
        let callers = book.callers();
        let mut slots = Vec::new(alloc);
        slots.push(Some(book))?;
        match Table::new(alloc, &[0, 0], slots, &callers) {
            Ok((table, inner)) => Ok((SharedDesk { table }, Root { inner })),
            Err(Refused { slots: _ }) => Err(AllocError),
        }
    }

    /// Makes the pass of the caller that `C` names.
    fn make_pass<C: Naming>(&self, root: &mut Root, caller: u8) -> Pass
        requires desk { IsRootOf self.now root.old }
        requires named { caller ≡ C.caller }
        requires not_made { place_of (root_view root.old).passes caller ≡ NotMade }
        ensures root { IsRootOf self.now root.new }
        ensures out { root_view root.new ≡ with_pass_out caller (root_view root.old) }
        ensures pass { IsPassOf self.now result }
        ensures made { view result ≡ new_pass caller (root_view root.old) }
    {
        let inner = self.table.shared.split_seat::<MakePass<C>>(&mut root.inner);
        Pass { inner, caller }
    }

    /// The pass of a caller that is below the count and got none yet. It has seen what the root has.
    pub fn pass(&self, root: &mut Root, caller: u8) -> Pass
        requires desk { IsRootOf self.now root.old }
        requires not_made { place_of (root_view root.old).passes caller ≡ NotMade }
        ensures root { IsRootOf self.now root.new }
        ensures out { root_view root.new ≡ with_pass_out caller (root_view root.old) }
        ensures pass { IsPassOf self.now result }
        ensures made { view result ≡ new_pass caller (root_view root.old) }
    {
        self.make_pass::<Brand>(root, caller)
    }

    /// A note of what the pass has seen.
    pub fn note(&self, pass: &mut Pass) -> Note
        requires { IsPassOf self.now pass.old }
        ensures pass { IsPassOf self.now pass.new }
        ensures same { view pass.new ≡ view pass.old }
        ensures note { IsNoteOf self.now result }
        ensures seen { (note_view result).seen ≡ (view pass.old).seen }
    {
        let inner = self.table.shared.split_seat::<MakeNote>(&mut pass.inner);
        Note { inner }
    }

    /// Hands a note to a pass, which has then seen what the note tells, and may have seen more.
    pub fn meet(&self, pass: &mut Pass, note: Note)
        requires pass { IsPassOf self.now pass.old }
        requires note { IsNoteOf self.now note }
        ensures pass { IsPassOf self.now pass.new }
        ensures caller { (view pass.new).caller ≡ (view pass.old).caller }
        ensures more { SeesMore (view pass.old) (view pass.new) }
        ensures told { BeginsWith (view pass.new).seen (note_view note).seen }
    {
        let Note { inner } = note;
        self.table
            .shared
            .join_seat::<TakeNote>(&mut pass.inner, inner);
        self.table.shared.load::<Look>(&mut pass.inner, COUNT);
    }

    /// Gives a pass back. The root has then seen what the pass has, and may have seen more: of the pass's caller no more than the
    /// pass's own calls, and nothing more of another caller whose pass isn't out.
    pub fn back(&self, root: &mut Root, pass: Pass)
        requires root { IsRootOf self.now root.old }
        requires pass { IsPassOf self.now pass }
        ensures root { IsRootOf self.now root.new }
        ensures seen { BeginsWith (root_view root.new).seen (root_view root.old).seen }
        ensures told { BeginsWith (root_view root.new).seen (view pass).seen }
        ensures back { (root_view root.new).passes ≡ with_back (root_view root.old).passes (view pass).caller }
        ensures knows { SeesHistory (root_view root.new) }
        ensures own { (caller : ℕ) → (view pass).caller ≡ Some caller → of_caller caller (root_view root.new).seen ≡ (view pass).own }
        ensures rest { (caller : ℕ) → place_of (root_view root.old).passes caller ≢ Out → (view pass).caller ≢ Some caller
            → of_caller caller (root_view root.new).seen ≡ of_caller caller (root_view root.old).seen }
    {
        let Pass { inner, caller: _ } = pass;
        self.table
            .shared
            .join_seat::<TakePass>(&mut root.inner, inner);
        self.table.shared.load::<LookAsRoot>(&mut root.inner, COUNT);
    }

    /// The book, once every pass was given back. Its history is what the root has seen, each line has its entry, and a caller who
    /// got no pass has none.
    pub fn close(self, root: Root) -> Book
        requires root { IsRootOf self root }
        requires back { EachIsBack (root_view root) }
        ensures callers { length result.scripts ≡ callers_of self }
        ensures seen { (root_view root).seen ≡ log_of result }
        ensures each { EachHasEntry result }
        ensures nobody { (caller : ℕ) → place_of (root_view root).passes caller ≡ NotMade → of_caller caller (log_of result) ≡ [] }
    {
        let SharedDesk { table } = self;
        let Root { inner } = root;
        let mut closed = table.close_with(inner);
        let slot = closed.take(0);
        closed.free();
        let Some(book) = slot else {
            unreachable!();
        };
        book
    }
}
