// The book of a desk, and what is read of it.

ghost use Rattle.std.specs.Prelude.{◌≡◌, ◌<◌, ◌-◌, length, IfOk, OnOk, OnErr};
ghost use Rattle.std.specs.Option.{option_copied};
ghost use Rattle.std.specs.List.{slice_get};
ghost use Rattle.plan_base.specs.Limits.{most_callers};
ghost use Rattle.plan_io.specs.Limits.{most_input_lines};
ghost use Rattle.plan_json.specs.Ranges.{IsBetween};
ghost use Rattle.desk_core.specs.History.{script_of};
ghost use Rattle.desk_book.specs.Seen.{empty_book, take_of, with_line};
ghost use Rattle.desk_book.specs.Kept.{IsBook};

mod going_on;
mod making;
mod publishing;

use desk_core::State;
use desk_events::EventEntry;
use making::{no_scripts, no_takes};
use plan_base::{ListOf, Taken, repeated};
use plan_io::ScriptLine;
use std::alloc::{AllocError, Global};
use std::marker::Model;

/// What the callers of a desk send, what was done of it in which order, and the state that this leaves. Callers are counted
/// from 0, and one that is handed in is below `callers()`, except that of one that isn't there `kept` answers None and `publish`
/// that nothing was taken. `line` takes a line's place from 0; an entry names it from 1.
///
/// Each call fails only for want of memory, and then the book is as before.
pub struct Book {
    scripts: Vec<ListOf<ScriptLine>>,
    // How many lines each caller has done.
    done: Vec<u32>,
    takes: Vec<Option<Taken>>,
    history: Vec<EventEntry>,
    state: State,
    alloc: Global,
}

impl Drop for Book {
    fn drop(self) {
        let Self {
            scripts: _,
            done: _,
            takes: _,
            history: _,
            state: _,
            alloc: _,
        } = self;
    }
}

impl Model for Book {
    ghost use Rattle.desk_book.specs.Seen.{BookSeen};

    ghost Value = { BookSeen };

    ghost use Rattle.desk_book.specs.Inside.{seen_book, IsInside};

    ghost view = { seen_book };

    ghost invariant = { IsInside };
}

impl Book {
    /// A book for so many callers, 1 to 8, who have sent nothing yet.
    pub fn new(alloc: Global, callers: u8) -> Result<Book, AllocError>
        requires { IsBetween 1 most_callers callers }
        ensures { IfOk result (λ book. book ≡ empty_book callers) }
    {
        let count = usize::from(callers);
        Ok(Book {
            scripts: no_scripts(alloc, count)?,
            done: repeated(alloc, 0, count)?,
            takes: no_takes(alloc, count)?,
            history: Vec::new(alloc),
            state: State::empty(alloc),
            alloc,
        })
    }

    /// How many callers there are, 1 to 8.
    pub fn callers(&self) -> u8
        ensures count { result ≡ length self.now.scripts }
        ensures book { IsBook self.now }
    {
        self.scripts.len() as u8
    }

    /// A line of a caller's script, none where the script has no such line.
    pub fn line(&self, caller: u8, index: u32) -> Option<&ScriptLine>
        requires { caller < length self.now.scripts }
        ensures { option_copied result ≡ slice_get (script_of self.now.scripts caller) index }
    {
        self.scripts[usize::from(caller)]
            .as_slice()
            .get(index as usize)
    }

    /// How many entries the history has.
    pub fn entries(&self) -> usize
        ensures { result ≡ length self.now.history }
    {
        self.history.len()
    }

    /// An entry of the history, none where it has no such entry.
    pub fn entry(&self, index: usize) -> Option<&EventEntry>
        ensures { option_copied result ≡ slice_get self.now.history index }
    {
        self.history.get(index)
    }

    /// The entry that was added last, none where there is no entry.
    pub fn last(&self) -> Option<&EventEntry>
        ensures { option_copied result ≡ slice_get self.now.history (length self.now.history - 1) }
    {
        self.history.last()
    }

    /// What was taken for the plan that a caller asked for, none where it asked for none since the last one was
    /// published or refused.
    pub fn kept(&self, caller: u8) -> Option<&Taken>
        ensures { option_copied result ≡ take_of self.now.takes caller }
    {
        self.takes.get(usize::from(caller))?.as_ref()
    }

    /// The state that the history leaves.
    pub fn state(&self) -> &State
        ensures { result.now ≡ self.now.state }
    {
        &self.state
    }

    /// Adds a line at the end of a caller's script, which has fewer than 65,536 lines.
    pub fn push(&mut self, caller: u8, line: ScriptLine) -> Result<(), AllocError>
        requires caller { caller < length self.old.scripts }
        requires room { length (script_of self.old.scripts caller) < most_input_lines }
        ensures ok { OnOk result (self.new ≡ with_line self.old caller line) }
        ensures err { OnErr result (self.new ≡ self.old) }
    {
        let script = &mut self.scripts[usize::from(caller)];
        script.push(line)
    }
}
