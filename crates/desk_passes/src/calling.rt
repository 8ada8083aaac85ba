// The calls of a pass.

ghost use Rattle.std.specs.Prelude.{◌≡◌, ◌<◌, ℕ, [], ◌∷◌, length, Some, None, IfOk, OnOk, OnErr};
ghost use Rattle.plan_io.specs.Limits.{most_input_lines};
ghost use Rattle.desk_events.specs.declared.entry.EventEntry.{EventEntry};
ghost use Rattle.desk_book.specs.Seen.{take_of};
ghost use Rattle.desk_book.specs.Doing.{IsPublished as IsBookPublished};
ghost use Rattle.desk_passes.specs.Plays.{GetsTurn};
ghost use Rattle.desk_passes.specs.Seen.{lines_done};
ghost use Rattle.desk_passes.specs.Steps.{without_turn, with_entry};
ghost use Rattle.desk_passes.specs.Turns.{answered, HasBook, HasEntry};
ghost use Rattle.desk_passes.specs.Calls.{
  IsPassOf,
  view,
  SeesMore,
  IsCalled,
  IsForTake,
  IsPublished,
  WritesEntry,
};

use crate::desk::{COUNT, SharedDesk, TURN};
use crate::holders::{CallAnswer, Pass, Receipt};
use crate::rule::{Count, GiveTurn, TryTurn};
use crate::seen::PassView;
use atomic_table::Seat;
use desk_book::{Book, BookCall, PublishStep};
use desk_events::write_entry;
use plan_base::Solved;
use plan_io::ScriptLine;
use std::alloc::AllocError;
use std::sync::Wait;
use std::thread;

/// What a call answers, with its receipt.
fn with_receipt(answer: BookCall, receipt: Receipt) -> CallAnswer
    ensures { result ≡ answered answer receipt }
{
    match answer {
        BookCall::Replied => CallAnswer::Replied(receipt),
        BookCall::Taken(taken) => CallAnswer::Taken(taken, receipt),
    }
}

/// Publishes what was found for an open Take.
fn publish_open(book: &mut Book, solved: Solved) -> Result<(), AllocError>
    requires { take_of book.old.takes solved.taken.caller ≡ Some solved.taken }
    ensures ok { OnOk result ((entry : EventEntry) × IsBookPublished book.old solved entry book.new) }
    ensures err { OnErr result (book.new ≡ book.old) }
{
    match book.publish(solved)? {
        PublishStep::Replied(_) => Ok(()),
        PublishStep::NotTaken | PublishStep::OtherTake => unreachable!(),
    }
}

/// The seat of a pass, which holds the slot while it has the turn.
type PassSeat = Seat<Option<Book>, PassView>;

impl SharedDesk {
    /// Waits for the turn, which takes the slot with the book.
    fn take_turn<R: Wait>(&self, rt: &R, seat: &mut PassSeat)
        requires desk { seat.old.table_id ≡ self.now.table.shared.table_id }
        requires no_slot { seat.old.me.1 ≡ [] }
        requires mine { (caller : ℕ) × (seat.old.me.0.caller ≡ Some caller) }
        ensures desk { seat.new.table_id ≡ self.now.table.shared.table_id }
        ensures turn { GetsTurn seat.old.me seat.new.me }
    {
        for _ in rt.forever() {
            let found = self
                .table
                .shared
                .compare_exchange::<TryTurn>(seat, TURN, 0, 1);
            if found == 0 {
                break;
            }
            thread::yield_now();
        }
    }

    /// Waits for the turn, and takes the book out of the slot.
    fn take_book<R: Wait>(&self, rt: &R, seat: &mut PassSeat) -> Book
        requires desk { seat.old.table_id ≡ self.now.table.shared.table_id }
        requires no_slot { seat.old.me.1 ≡ [] }
        requires mine { (caller : ℕ) × (seat.old.me.0.caller ≡ Some caller) }
        ensures desk { seat.new.table_id ≡ self.now.table.shared.table_id }
        ensures book { HasBook seat.old.me result seat.new.me }
    {
        self.take_turn(rt, seat);
        let Some(book) = self.table.shared.exchange(seat, 0, None) else {
            unreachable!();
        };
        book
    }

    /// Puts the book into the slot, which is empty.
    fn put_book(&self, seat: &mut PassSeat, book: Book)
        requires desk { seat.old.table_id ≡ self.now.table.shared.table_id }
        requires empty { seat.old.me.1 ≡ (0, None) ∷ [] }
        ensures desk { seat.new.table_id ≡ self.now.table.shared.table_id }
        ensures put { seat.new.me ≡ (seat.old.me.0, (0, Some book) ∷ []) }
    {
        let None = self.table.shared.exchange(seat, 0, Some(book)) else {
            unreachable!();
        };
    }

    /// Gives the book and the turn back, as they were taken.
    fn give_back(&self, seat: &mut PassSeat, book: Book)
        requires desk { seat.old.table_id ≡ self.now.table.shared.table_id }
        requires empty { seat.old.me.1 ≡ (0, None) ∷ [] }
        requires turn { seat.old.me.0.turn ≡ Some book }
        requires mine { (caller : ℕ) × (seat.old.me.0.caller ≡ Some caller) }
        ensures desk { seat.new.table_id ≡ self.now.table.shared.table_id }
        ensures given { seat.new.me ≡ (without_turn seat.old.me.0, []) }
    {
        self.put_book(seat, book);
        self.table.shared.swap::<GiveTurn>(seat, TURN, 0);
    }

    /// Counts the entry that the book has more now, and gives the book and the turn back. Answers the entry's place.
    fn count_and_give_back(&self, seat: &mut PassSeat, caller: u8, book: Book) -> u64
        requires desk { seat.old.table_id ≡ self.now.table.shared.table_id }
        requires empty { seat.old.me.1 ≡ (0, None) ∷ [] }
        requires more { HasEntry seat.old.me.0 caller book }
        ensures desk { seat.new.table_id ≡ self.now.table.shared.table_id }
        ensures given { seat.new.me ≡ (without_turn (with_entry book caller seat.old.me.0), []) }
        ensures place { result ≡ length seat.old.me.0.seen }
    {
        // The call tells that the entries can be counted.
        let _ = book.entries();
        self.put_book(seat, book);
        let place = self.table.shared.fetch_add::<Count>(seat, COUNT, 1);
        self.table.shared.swap::<GiveTurn>(seat, TURN, 0);
        place
    }

    /// Does a line of the pass's caller, or only takes what it asks to be planned, and answers where its entry stands. The pass
    /// has no open Take, and did fewer than 65,536 lines. Waits for the turn, and meanwhile yields its processor again and
    /// again. Fails only for want of memory: then the desk is as before, and the pass, which may have seen more, may be used
    /// again.
    pub fn call<R: Wait>(
        &self,
        rt: &R,
        pass: &mut Pass,
        line: ScriptLine,
    ) -> Result<CallAnswer, AllocError>
        requires desk { IsPassOf self.now pass.old }
        requires shut { (view pass.old).take ≡ None }
        requires room { lines_done (view pass.old).own < most_input_lines }
        ensures desk { IsPassOf self.now pass.new }
        ensures caller { (view pass.new).caller ≡ (view pass.old).caller }
        ensures ok { IfOk result (λ answer. IsCalled (view pass.old) line answer (view pass.new)) }
        ensures err { OnErr result (SeesMore (view pass.old) (view pass.new)) }
    {
        let caller = pass.caller;
        let mut book = self.take_book(rt, &mut pass.inner);
        let called = book.call(caller, line);
        // The call tells what holds of every book, and so of the one that is given back.
        let _ = book.callers();
        match called {
            Ok(answer) => {
                let place = self.count_and_give_back(&mut pass.inner, caller, book);
                Ok(with_receipt(answer, Receipt { place }))
            }
            Err(error) => {
                self.give_back(&mut pass.inner, book);
                Err(error)
            }
        }
    }

    /// Publishes what was found for the pass's open Take, or says that it is stale, since a change was accepted meanwhile, or
    /// that there are too many possible starts, and answers where this entry stands. Waits for the turn as
    /// [`call`](SharedDesk::call) does. Fails only for want of memory: then the desk is as before, and the pass, which may have
    /// seen more, may be used again; what was found is lost, so a copy of the Take is needed to seek anew.
    pub fn publish<R: Wait>(
        &self,
        rt: &R,
        pass: &mut Pass,
        solved: Solved,
    ) -> Result<Receipt, AllocError>
        requires desk { IsPassOf self.now pass.old }
        requires taken { IsForTake (view pass.old) solved }
        ensures desk { IsPassOf self.now pass.new }
        ensures caller { (view pass.new).caller ≡ (view pass.old).caller }
        ensures ok { IfOk result (λ receipt. IsPublished (view pass.old) solved receipt.place (view pass.new)) }
        ensures err { OnErr result (SeesMore (view pass.old) (view pass.new)) }
    {
        let caller = pass.caller;
        let mut book = self.take_book(rt, &mut pass.inner);
        let published = publish_open(&mut book, solved);
        // The call tells what holds of every book, and so of the one that is given back.
        let _ = book.callers();
        match published {
            Ok(()) => {
                let place = self.count_and_give_back(&mut pass.inner, caller, book);
                Ok(Receipt { place })
            }
            Err(error) => {
                self.give_back(&mut pass.inner, book);
                Err(error)
            }
        }
    }

    /// Adds, at the end of `into`, the text of the entry at a place of what the pass has seen: one JSON object and a newline.
    /// Waits for the turn as [`call`](SharedDesk::call) does. Fails only for want of memory, and then adds nothing.
    pub fn write_entry<R: Wait>(
        &self,
        rt: &R,
        pass: &mut Pass,
        place: u64,
        into: &mut Vec<u8>,
    ) -> Result<(), AllocError>
        requires desk { IsPassOf self.now pass.old }
        requires place { place < length (view pass.old).seen }
        ensures desk { IsPassOf self.now pass.new }
        ensures caller { (view pass.new).caller ≡ (view pass.old).caller }
        ensures more { SeesMore (view pass.old) (view pass.new) }
        ensures ok { OnOk result (WritesEntry (view pass.old) place into.old.items into.new.items) }
        ensures err { OnErr result (into.new.items ≡ into.old.items) }
    {
        let book = self.take_book(rt, &mut pass.inner);
        let Some(entry) = book.entry(place as usize) else {
            unreachable!();
        };
        let written = write_entry(entry, into);
        self.give_back(&mut pass.inner, book);
        written
    }
}
