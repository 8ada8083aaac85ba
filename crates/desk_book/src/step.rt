// What the calls of a book answer.

use desk_events::EventEntry;
use plan_base::Taken;

/// What `Book::perform` did.
#[derive(Drop)]
pub enum BookStep {
    /// The caller's next line is done, and replied to.
    Replied,
    /// The caller's next line asks for a plan of an opened desk, and this was taken.
    Taken(Taken),
    /// Nothing: the plan that the caller asked for isn't published yet.
    TakeOpen,
    /// Nothing: no line of the caller is left.
    Over,
}

/// What `Book::call` did. The entry is the book's last one, and is read there: once a change is made, there might be no
/// memory for a copy.
#[derive(Drop)]
pub enum BookCall {
    /// The line is done, and replied to.
    Replied,
    /// The line asks for a plan of an opened desk, and this was taken.
    Taken(Taken),
}

/// What `Book::publish` did.
#[derive(Drop)]
pub enum PublishStep {
    /// What was found is published or refused, by this entry.
    Replied(EventEntry),
    /// Nothing: the caller has no open Take.
    NotTaken,
    /// Nothing: the caller's open Take is another one.
    OtherTake,
}
