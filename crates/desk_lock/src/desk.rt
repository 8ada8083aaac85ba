// A desk under a lock.

ghost use Rattle.std.specs.Prelude.{◌≡◌, IfOk};
ghost use Rattle.desk_lock.specs.Finishing.{IsStepInRange};

use crate::finishing::publish_kept;
use desk_book::{Book, BookStep, PublishStep};
use plan_base::Solved;
use snapshot_starts::StartCache;
use std::alloc::{AllocError, Global};
use std::marker::{Brand, PhantomData};
use std::sync::Mutex;
use std::thread::Threads;

/// Which lines the callers of a desk send. Of what lies under a lock only the facts of its type are known: so the type says
/// whose lines they are. The call that makes a desk picks them.
pub trait Sending {
    ghost use Rattle.std.specs.Prelude.{List};
    ghost use Rattle.plan_io.specs.declared.lines.ScriptLine.{ScriptLine};

    /// The scripts of the callers.
    ghost scripts: { List (List ScriptLine) };
}

impl Sending for Brand {
    ghost use Rattle.std.specs.Prelude.{[]};

    ghost scripts = { [] };
}

/// What lies under the lock: the book of these callers.
#[derive(Drop)]
pub(crate) struct Held<S: Sending> {
    book: Book,
    of: PhantomData<S>,
    ghost sent: { book.scripts ≡ S.scripts },
}

impl<S: Sending> Held<S> {
    /// Whether the caller's script has a line at this place; there may be no such caller.
    pub(crate) fn has_line(&self, caller: u8, index: u32) -> bool {
        caller < self.book.callers() && self.book.line(caller, index).is_some()
    }

    /// Does the caller's next line, or only takes what it asks to be planned. Where there is no such caller, none is left.
    pub(crate) fn perform(&mut self, caller: u8) -> Result<BookStep, AllocError>
        ensures { IfOk result IsStepInRange }
    {
        if caller >= self.book.callers() {
            return Ok(BookStep::Over);
        }
        // The call tells what holds of every state, so that the settings are known to be in their ranges.
        let _ = self.book.state().version();
        self.book.perform(caller)
    }

    /// Publishes the plan of what the caller took, whatever that is.
    pub(crate) fn publish_kept<R: Threads + Sync>(
        &mut self,
        rt: &R,
        alloc: Global,
        caller: u8,
        cache: &mut StartCache,
    ) -> Result<(), AllocError> {
        if self.book.kept(caller).is_none() {
            return Ok(());
        }
        publish_kept(rt, alloc, &mut self.book, caller, cache)
    }

    /// Publishes what was found for what the caller took. Where it was found for another Take, its own is sought anew: no call
    /// comes to that, but what lies under a lock doesn't tell.
    pub(crate) fn publish<R: Threads + Sync>(
        &mut self,
        rt: &R,
        alloc: Global,
        solved: Solved,
        cache: &mut StartCache,
    ) -> Result<(), AllocError> {
        let caller = solved.taken().caller;
        match self.book.publish(solved)? {
            PublishStep::Replied(_) | PublishStep::NotTaken => Ok(()),
            PublishStep::OtherTake => self.publish_kept(rt, alloc, caller, cache),
        }
    }
}

/// A desk that several callers share: its book lies under a lock. Whatever threads do of it, its callers and their lines stay.
#[derive(Drop)]
pub struct Desk<S: Sending> {
    held: Mutex<Held<S>>,
}

impl<S: Sending> Desk<S> {
    /// The desk of a book with these lines.
    pub fn new(book: Book) -> Desk<S>
        requires { book.scripts ≡ S.scripts }
    {
        let held = Held {
            book,
            of: PhantomData,
        };
        Desk {
            held: Mutex::new(held),
        }
    }

    /// What lies under the lock, which one thread at a time may have.
    pub(crate) fn held(&self) -> &Mutex<Held<S>> {
        &self.held
    }

    /// The book, once no thread has the desk any more.
    pub(crate) fn into_book(self) -> Book
        ensures { result.scripts ≡ S.scripts }
    {
        let Held { book, .. } = self.held.into_inner();
        book
    }
}
