// A caller's next line.

ghost use Rattle.std.specs.Prelude.{◌≡◌, ◌<◌, ◌-◌, length, take, None, IfOk, OnOk, OnErr, IfSome, MatchOption};
ghost use Rattle.plan_io.specs.Limits.{most_input_lines};
ghost use Rattle.desk_core.specs.History.{script_of, IsPlanning};
ghost use Rattle.desk_events.specs.Line.{command_of_line};
ghost use Rattle.desk_events.specs.Ranges.{IsCommand};
ghost use Rattle.desk_book.specs.Seen.{take_of, next_line, with_line, with_lines};
ghost use Rattle.desk_book.specs.Doing.{SaysNext, DoesStep, DoesTake, IsDone, IsPerformed};
ghost use Rattle.desk_book.specs.Kept.{IsSound};

use super::Book;
use crate::doing::{apply_read, is_plan, read_line, take_for};
use crate::step::{BookCall, BookStep};
use desk_events::{Command, CommandFault, EventEntry, Reply, What};
use plan_base::{ListOf, Taken};
use plan_io::ScriptLine;
use std::alloc::{AllocError, Global};
use std::mem;

/// Drops the last line of a script, which has one.
fn drop_last(alloc: Global, script: &mut ListOf<ScriptLine>)
    ensures { script.new ≡ take (length script.old - 1) script.old }
{
    let mut lines = mem::replace(script, ListOf::new(alloc)).into_vec();
    let _ = lines.pop();
    *script = ListOf::from_vec(lines);
}

impl Book {
    /// What the caller's next line says, none where no line is left.
    fn read_next(&self, caller: u8) -> Result<Option<Result<Command, CommandFault>>, AllocError>
        requires { caller < length self.now.scripts }
        ensures next { IfOk result (λ found. MatchOption found (next_line self.now caller ≡ None) (SaysNext self.now caller)) }
        ensures ranges { IfOk result (λ found. IfSome found (λ read. IfOk read IsCommand)) }
    {
        let Some(line) = self.line(caller, self.done[usize::from(caller)]) else {
            return Ok(None);
        };
        let read = read_line(self.alloc, line)?;
        Ok(Some(read))
    }

    /// Does the caller's next line as one step.
    fn do_step(&mut self, caller: u8, read: Result<Command, CommandFault>) -> Result<(), AllocError>
        requires caller { caller < length self.old.scripts }
        requires shut { take_of self.old.takes caller ≡ None }
        requires next { SaysNext self.old caller read }
        requires ranges { IfOk read IsCommand }
        requires step { ¬ (IsPlanning self.old.state read) }
        ensures ok { OnOk result (DoesStep self.old caller read self.new) }
        ensures err { OnErr result (self.new ≡ self.old) }
    {
        let place = usize::from(caller);
        let line = self.done[place] + 1;
        let version = self.state.version();
        self.history.reserve(1)?;
        let reply = apply_read(&mut self.state, read)?;
        let entry = EventEntry {
            caller,
            line,
            what: What::Line,
            version,
            reply,
        };
        self.history.push_reserved(entry);
        self.done[place] = line;
        Ok(())
    }

    /// Takes the snapshot of the opened desk for the caller, whose next line asks for a plan.
    fn do_take(
        &mut self,
        caller: u8,
        read: &Result<Command, CommandFault>,
    ) -> Result<Taken, AllocError>
        requires caller { caller < length self.old.scripts }
        requires shut { take_of self.old.takes caller ≡ None }
        requires next { SaysNext self.old caller read.now }
        requires plan { IsPlanning self.old.state read.now }
        ensures ok { IfOk result (λ taken. DoesTake self.old caller read.now taken self.new) }
        ensures err { OnErr result (self.new ≡ self.old) }
    {
        let place = usize::from(caller);
        self.history.reserve(1)?;
        let taken = take_for(caller, &self.state)?;
        let kept = taken.copy()?;
        let entry = EventEntry {
            caller,
            line: self.done[place] + 1,
            what: What::Take,
            version: self.state.version(),
            reply: Reply::Taken,
        };
        self.history.push_reserved(entry);
        self.takes[place] = Some(kept);
        Ok(taken)
    }

    /// Does the caller's next line.
    fn do_next(
        &mut self,
        caller: u8,
        read: Result<Command, CommandFault>,
    ) -> Result<BookCall, AllocError>
        requires caller { caller < length self.old.scripts }
        requires shut { take_of self.old.takes caller ≡ None }
        requires next { SaysNext self.old caller read }
        requires ranges { IfOk read IsCommand }
        ensures ok { IfOk result (λ answer. IsDone self.old caller read answer self.new) }
        ensures err { OnErr result (self.new ≡ self.old) }
    {
        if is_plan(&read) && self.state.is_opened() {
            let taken = self.do_take(caller, &read)?;
            return Ok(BookCall::Taken(taken));
        }
        self.do_step(caller, read)?;
        Ok(BookCall::Replied)
    }

    /// Takes back the line that was added last to the caller's script.
    fn take_back(&mut self, caller: u8)
        requires caller { caller < length self.old.scripts }
        requires sound { IsSound (with_lines self.old caller (length (script_of self.old.scripts caller) - 1)) }
        ensures { self.new ≡ with_lines self.old caller (length (script_of self.old.scripts caller) - 1) }
    {
        let script = &mut self.scripts[usize::from(caller)];
        drop_last(self.alloc, script);
    }

    /// Does the caller's next line, unless its Take is open or no line is left. A line that asks for a plan of an
    /// opened desk is only begun: what was taken for it is answered, and kept until it is published.
    pub fn perform(&mut self, caller: u8) -> Result<BookStep, AllocError>
        requires { caller < length self.old.scripts }
        ensures ok { IfOk result (λ step. IsPerformed self.old caller step self.new) }
        ensures err { OnErr result (self.new ≡ self.old) }
    {
        if self.kept(caller).is_some() {
            return Ok(BookStep::TakeOpen);
        }
        let Some(read) = self.read_next(caller)? else {
            return Ok(BookStep::Over);
        };
        match self.do_next(caller, read)? {
            BookCall::Replied => Ok(BookStep::Replied),
            BookCall::Taken(taken) => Ok(BookStep::Taken(taken)),
        }
    }

    /// Adds a line at the end of the caller's script and does it, as `perform` does. The caller has no open Take and no
    /// line left, and fewer than 65,536 lines. Want of memory leaves the script, too, as before.
    pub fn call(&mut self, caller: u8, line: ScriptLine) -> Result<BookCall, AllocError>
        requires caller { caller < length self.old.scripts }
        requires room { length (script_of self.old.scripts caller) < most_input_lines }
        requires shut { take_of self.old.takes caller ≡ None }
        requires over { next_line self.old caller ≡ None }
        ensures ok { IfOk result (λ answer. IsDone (with_line self.old caller line) caller (command_of_line line) answer self.new) }
        ensures err { OnErr result (self.new ≡ self.old) }
    {
        let read = read_line(self.alloc, &line)?;
        self.push(caller, line)?;
        let answer = self.do_next(caller, read);
        if answer.is_err() {
            self.take_back(caller);
        }
        answer
    }
}
