//! Reading a source line by line.
ghost use Rattle.std.specs.Prelude.{◌≡◌, ◌<◌, ◌≤◌, ◌↔◌, ◌^◌, ◌+◌, ◌-◌, [], length, max, true, false, IfOk, IsOkAnd, OnErr, IsTrue};
ghost use Rattle.std.specs.Io.KnownBytes.{IsAtEnd};
ghost use Rattle.plan_io.specs.Limits.{most_read};
ghost use Rattle.plan_io.specs.Newline.{NoNewline};
ghost use Rattle.plan_io.specs.LinesSeen.{IsFresh, IsWithin, HasLine};
ghost use Rattle.plan_io.specs.LinesOf.{after_newline};
ghost use Rattle.plan_io.specs.Next.{line_at, ReadsOn, IsCut, IsTurn, IsTurnCause, IsLast, IsNext, IsNextCause, IsLine};

use super::byte_list::ByteList;
use super::held::Held;
use super::room::{ROOM, read_block, read_room};
use super::source::{ReadAnswer, Source};
use std::alloc::{AllocError, Global};
use std::marker::Model;

/// The most bytes of a line, without its newline.
const LONGEST: usize = 1_048_576;

/// A line of a script.
#[derive(Clone, Drop, PartialEq, Eq)]
pub enum ScriptLine {
    /// Its bytes without the newline: at most 1,048,576.
    Bytes(ByteList),
    /// The line has more bytes than that.
    TooLong,
}

/// What a call of `Lines::next` answers.
#[derive(Drop)]
pub enum LineAnswer {
    /// The next line: the bytes before a newline, or those before the end where there is at least one.
    Line(ScriptLine),
    /// The source gave no byte more, and none is left over.
    End,
    /// A read failed, in this call or in an earlier call that answered so.
    ReadFault,
    /// More bytes were taken than the limit allows, or one line too many has begun.
    InputOver,
}

/// What one turn of reading gave.
enum Turn {
    More,
    End,
    Failed,
    Over,
}

/// A reader of lines, with limits on the bytes that it takes and on the lines that it answers.
///
/// It reads by blocks of 65,536 bytes, only while no whole line is at hand, so that it holds less than a block beyond a
/// line that it read. It asks for a byte beyond a limit only where no whole line is left. After `End`, `ReadFault` or
/// `InputOver` it answers the same in every later call, and reads no more. Where memory is wanting no byte is lost, and
/// the call may be made again.
pub struct Lines {
    alloc: Global,
    /// What was taken of the source and not answered yet.
    held: Held,
    /// Where a block is read to, before `held` takes it up.
    room: Vec<u8>,
    /// Whether the line that is being read is too long, so that its bytes so far were dropped.
    long: bool,
    /// How many bytes were taken of the source.
    taken: u64,
    /// How many lines were answered.
    answered: u64,
    most_bytes: u64,
    most_lines: u64,
    /// Whether a read failed.
    failed: bool,
    /// Whether the source gave no more.
    ended: bool,
}

impl Drop for Lines {
    fn drop(self) {
        let Self {
            alloc: _,
            held: _,
            room: _,
            long: _,
            taken: _,
            answered: _,
            most_bytes: _,
            most_lines: _,
            failed: _,
            ended: _,
        } = self;
    }
}

impl Model for Lines {
    ghost use Rattle.plan_io.specs.LinesSeen.{LinesSeen};

    ghost Value = { LinesSeen };

    ghost use Rattle.plan_io.specs.Reader.{IsReader, seen_of};

    ghost view = { seen_of };

    ghost invariant = { IsReader };
}

impl Lines {
    /// A reader that takes at most `most_bytes` bytes, and one more to see that there are more, and answers at most
    /// `most_lines` lines. Fails only for want of memory.
    pub fn new(alloc: Global, most_bytes: u64, most_lines: u64) -> Result<Self, AllocError>
        requires bytes { most_bytes < 2 ^ 32 }
        requires lines { most_lines < 2 ^ 32 }
        ensures { IfOk result (λ reader. reader ≡ record {
          held = [];
          long = false;
          taken = 0;
          answered = 0;
          most_bytes = most_bytes;
          most_lines = most_lines;
          failed = false;
          ended = false;
        }) }
    {
        Ok(Lines {
            alloc,
            held: Held::new(alloc),
            room: read_room(alloc)?,
            long: false,
            taken: 0,
            answered: 0,
            most_bytes,
            most_lines,
            failed: false,
            ended: false,
        })
    }

    /// Whether no byte of the next line was taken.
    fn is_fresh(&self) -> bool
        ensures { IsTrue result ↔ IsFresh self.now }
    {
        self.held.len() == 0 && !self.long
    }

    /// Whether the bytes and the lines that were begun are within the limits.
    fn is_within(&self) -> bool
        ensures { IsTrue result ↔ IsWithin self.now }
    {
        self.taken <= self.most_bytes && (self.answered < self.most_lines || self.is_fresh())
    }

    /// Whether a whole line is at hand, within the limits. Then `next` answers one without reading, or finds no memory for it.
    pub fn has_line(&self) -> bool
        ensures { IsTrue result ↔ HasLine self.now }
    {
        if self.failed || !self.is_within() {
            return false;
        }
        if self.ended {
            return !self.is_fresh();
        }
        self.held.has_newline()
    }

    /// The line of the first bytes.
    fn line_at(&self, size: usize) -> Result<ScriptLine, AllocError>
        requires { size ≤ length self.now.held }
        ensures { IfOk result (λ line. line ≡ line_at self.now size) }
    {
        if self.long || size > LONGEST {
            return Ok(ScriptLine::TooLong);
        }
        let bytes = Vec::from_slice(self.alloc, self.held.front(size))?;
        Ok(ScriptLine::Bytes(ByteList::from(bytes)))
    }

    /// Cuts the first line off the bytes that are held, where they have a newline.
    fn cut(&mut self) -> Result<Option<ScriptLine>, AllocError>
        requires within { IsWithin self.old }
        requires steady { self.old.failed ≡ false }
        requires open { self.old.ended ≡ false }
        ensures cut { IfOk result (λ line. IsCut self.old self.new line) }
        ensures err { OnErr result (self.new ≡ self.old) }
    {
        match self.held.newline() {
            None => {
                if !self.long && self.held.len() <= LONGEST {
                    return Ok(None);
                }
                self.held.clear();
                self.long = true;
                Ok(None)
            }
            Some(at) => {
                let line = self.line_at(at)?;
                self.held.pass(at);
                self.long = false;
                self.answered += 1;
                Ok(Some(line))
            }
        }
    }

    /// How many bytes a read asks for: none beyond those that are allowed, but one where none is, or where a byte more
    /// begins a line too many.
    fn read_size(&self) -> usize
        requires { IsWithin self.now }
        ensures some { 0 < result }
        ensures room { result ≤ most_read }
        ensures within { result ≤ max 1 (self.now.most_bytes - self.now.taken) }
        ensures one { self.now.answered ≡ self.now.most_lines → result ≡ 1 }
    {
        if self.answered == self.most_lines {
            return 1;
        }
        (self.most_bytes - self.taken).clamp(1, ROOM as u64) as usize
    }

    /// Reads once.
    fn read_more<S: Source>(&mut self, source: &mut S) -> Result<Turn, AllocError>
        requires within { IsWithin self.old }
        requires steady { self.old.failed ≡ false }
        requires open { self.old.ended ≡ false }
        requires clear { NoNewline self.old.held }
        ensures turn { IfOk result (λ turn. IsTurn self.old (S.left source.old) self.new (S.left source.new) turn) }
        ensures cause { IfOk result (λ turn. IsTurnCause (S.faults source.old) (S.faults source.new) turn) }
        ensures ahead { IfOk result (λ turn. turn ≡ Turn.More → length (after_newline self.new.held) < most_read) }
        ensures more { IfOk result (λ turn. turn ≡ Turn.More → self.new.answered < self.new.most_lines) }
        ensures one { self.old.answered ≡ self.old.most_lines → self.new.taken ≤ self.old.taken + 1 }
        ensures err { OnErr result ((self.new ≡ self.old) × (source.new ≡ source.old)) }
    {
        let size = self.read_size();
        let allowed = self.most_bytes - self.taken;
        self.held.make_room(ROOM)?;
        match read_block(source, self.room.as_mut_slice(), size) {
            ReadAnswer::Got(count) => {
                if count == 0 {
                    self.ended = true;
                    return Ok(Turn::End);
                }
                self.taken += count as u64;
                if count as u64 > allowed {
                    return Ok(Turn::Over);
                }
                self.held.add(&self.room.as_slice()[..count]);
                if self.answered == self.most_lines {
                    return Ok(Turn::Over);
                }
                Ok(Turn::More)
            }
            ReadAnswer::Failed => {
                self.failed = true;
                Ok(Turn::Failed)
            }
        }
    }

    /// The last piece, where there is one.
    fn last(&mut self) -> Result<LineAnswer, AllocError>
        requires within { IsWithin self.old }
        requires clear { NoNewline self.old.held }
        ensures last { IfOk result (λ answer. IsLast self.old self.new answer) }
        ensures fresh { IsFresh self.old → IsOkAnd result (λ answer. (answer ≡ LineAnswer.End) × (self.new ≡ self.old)) }
        ensures begun { ¬ IsFresh self.old → IfOk result IsLine }
        ensures err { OnErr result (self.new ≡ self.old) }
    {
        if self.is_fresh() {
            return Ok(LineAnswer::End);
        }
        let line = self.line_at(self.held.len())?;
        self.held.clear();
        self.long = false;
        self.answered += 1;
        Ok(LineAnswer::Line(line))
    }

    /// The next line of `source`, which is the same in every call of this reader. Where a whole line is at hand, or
    /// an earlier call answered that there is none more, it isn't read. Fails only for want of memory.
    pub fn next<S: Source>(&mut self, source: &mut S) -> Result<LineAnswer, AllocError>
        ensures next { IfOk result (λ answer. IsNext self.old (S.left source.old) self.new (S.left source.new) answer) }
        ensures cause { IfOk result (λ answer. IsNextCause self.old (S.faults source.old) (S.faults source.new) answer) }
        ensures at_hand { HasLine self.old → (source.new ≡ source.old) × IfOk result IsLine }

        // A line is answered once its block was read, not once all is read. Of lines that are too many, one byte is taken.
        ensures ahead { ¬ HasLine self.old → IfOk result (λ answer. IsLine answer → length self.new.held < most_read) }
        ensures one { self.old.answered ≡ self.old.most_lines → self.new.taken ≤ self.old.taken + 1 }

        // What was answered once as the last is answered ever after.
        ensures stays_failed { self.old.failed ≡ true → (source.new ≡ source.old)
            × IsOkAnd result (λ answer. (answer ≡ LineAnswer.ReadFault) × (self.new ≡ self.old)) }
        ensures stays_ended { self.old.ended ≡ true → IsFresh self.old → (source.new ≡ source.old)
            × IsOkAnd result (λ answer. (answer ≡ LineAnswer.End) × (self.new ≡ self.old)) }
        ensures stays_over { ¬ IsWithin self.old → (source.new ≡ source.old)
            × IsOkAnd result (λ answer. (answer ≡ LineAnswer.InputOver) × (self.new ≡ self.old)) }

        // Where memory is wanting, bytes may have been taken, and all of them are kept.
        ensures err { OnErr result (ReadsOn self.old (S.left source.old) [] self.new (S.left source.new)) }
        ensures err_state { OnErr result ((self.new.failed ≡ self.old.failed) × IsWithin self.new
            × (self.old.ended ≡ false → self.new.ended ≡ true → IsAtEnd (S.left source.new))) }
        ensures err_faults { OnErr result (S.faults source.old ≤ S.faults source.new) }
        ensures err_at_hand { HasLine self.old → OnErr result (self.new ≡ self.old) }
    {
        if self.failed {
            return Ok(LineAnswer::ReadFault);
        }
        if !self.is_within() {
            return Ok(LineAnswer::InputOver);
        }
        if self.ended {
            return self.last();
        }
        match self.cut()? {
            Some(line) => Ok(LineAnswer::Line(line)),
            None => self.read_on(source),
        }
    }

    /// Reads until a line is whole, or the source gives none more.
    fn read_on<S: Source>(&mut self, source: &mut S) -> Result<LineAnswer, AllocError>
        requires within { IsWithin self.old }
        requires steady { self.old.failed ≡ false }
        requires open { self.old.ended ≡ false }
        requires clear { NoNewline self.old.held }
        ensures next { IfOk result (λ answer. IsNext self.old (S.left source.old) self.new (S.left source.new) answer) }
        ensures cause { IfOk result (λ answer. IsNextCause self.old (S.faults source.old) (S.faults source.new) answer) }
        ensures ahead { IfOk result (λ answer. IsLine answer → length self.new.held < most_read) }
        ensures one { self.old.answered ≡ self.old.most_lines → self.new.taken ≤ self.old.taken + 1 }
        ensures err { OnErr result (ReadsOn self.old (S.left source.old) [] self.new (S.left source.new)) }
        ensures err_state { OnErr result ((self.new.failed ≡ false) × IsWithin self.new
            × (self.new.ended ≡ true → IsAtEnd (S.left source.new))) }
        ensures err_faults { OnErr result (S.faults source.old ≤ S.faults source.new) }
    {
        loop {
            match self.read_more(source)? {
                Turn::More => {
                    if let Some(line) = self.cut()? {
                        return Ok(LineAnswer::Line(line));
                    }
                }
                Turn::End => return self.last(),
                Turn::Failed => return Ok(LineAnswer::ReadFault),
                Turn::Over => return Ok(LineAnswer::InputOver),
            }
        }
    }
}
