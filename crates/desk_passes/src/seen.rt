// What whoever shares a desk knows of it.

use desk_book::Book;
use desk_events::EventEntry;
use plan_base::Taken;
use plan_io::ScriptLine;
use std::collections::LinkedList;

/// An entry of a desk's history, with the line that it does; a Publish has the line of its Take. Contracts speak of it, and no
/// value of it is ever made.
pub struct SeenEntry {
    /// The entry.
    pub entry: EventEntry,
    /// The line that it does.
    pub line: ScriptLine,
}

/// What was taken for a plan that isn't published yet, with the line that asked for it. Contracts speak of it, and no value of
/// it is ever made.
pub struct OpenTake {
    /// What was taken.
    pub taken: Taken,
    /// The line that asked for it.
    pub line: ScriptLine,
}

/// Where the pass of a caller is. Contracts speak of it, and no value of it is ever made.
pub enum PassPlace {
    /// The caller got none yet.
    NotMade,
    /// Some thread has it.
    Out,
    /// It was given back.
    Back,
}

/// What is known by whoever has a root, a pass or a note. Contracts speak of it, and no value of it is ever made.
pub struct PassView {
    /// Whose calls a pass makes; nobody's where it is a root or a note.
    pub caller: Option<u8>,
    /// The first entries of the desk's history, up to the last one that was seen.
    pub seen: LinkedList<SeenEntry>,
    /// What was seen by those from whom a note or a pass was taken over since.
    pub told: LinkedList<SeenEntry>,
    /// The entries of the pass's own calls; of a root, those of the pass that it got back last.
    pub own: LinkedList<SeenEntry>,
    /// What was taken for the caller's plan, until this is published.
    pub take: Option<OpenTake>,
    /// The book, while the pass has the turn.
    pub turn: Option<Book>,
    /// Where the passes of all callers are; known to the root alone.
    pub passes: LinkedList<PassPlace>,
    /// Whose pass the root got back last, until it has seen all that was there then.
    pub back: Option<u8>,
}
