// Laws of the desk and its histories, each the contract of a function that does nothing.

ghost use Rattle.desk_book.specs.Again.{HistoriesAreMadeAgain};
ghost use Rattle.desk_book.specs.Laws.{OneReply, VersionsCount, TextTellsHistory, OneReplay, OverIsWhole};
ghost use Rattle.desk_book.specs.Plans.{PlansAreStaleByChanges};

/// The law: for one state of the desk and one line that is a step there is one reply.
pub fn one_reply()
    ensures { OneReply }
{}

/// The law: the version of an entry is the number of changes that were accepted before it.
pub fn versions_count()
    ensures { VersionsCount }
{}

/// The law: a `plan` line that was taken is `Stale` exactly where a change was accepted between its Take and its Publish. Else it is
/// refused with the count of the possible starts exactly where they are too many, else it is published.
pub fn plans_are_stale_by_changes()
    ensures { PlansAreStaleByChanges }
{}

/// The law: legal histories of the same scripts that have one text are the same, where each entry of one of them can be written.
pub fn text_tells_history()
    ensures { TextTellsHistory }
{}

/// The law: a legal history leads from the empty state to one state, its replay.
pub fn one_replay()
    ensures { OneReplay }
{}

/// The law: where no caller of a book has an open Take or a line left, its history is whole.
pub fn over_is_whole()
    ensures { OverIsWhole }
{}

/// The law: where the lines of a legal history are sent again, with the claim of each published plan in place of the plan, they have the
/// replies that they had, and leave the state that there was; nothing stands in place of a Take, nor of a plan that was refused.
pub fn histories_are_made_again()
    ensures { HistoriesAreMadeAgain }
{}
