// Laws of texts, each the contract of a function that does nothing.

ghost use Rattle.desk_events.specs.Laws.{EntriesAreReadBack, OneEntry, OneHistory};
ghost use Rattle.desk_events.specs.Sent.{ClaimsCanBeSent};

/// A law: the text of an entry is read as its object, with the newline at its end, where the object can be written ([`write_entry`]
/// says so of each that it writes).
///
/// [`write_entry`]: crate::write_entry
pub fn entries_are_read_back()
    ensures { EntriesAreReadBack }
{}

/// A law: the text of a `publish` line is read as the command that publishes its claim for its version, where version and claim are in
/// their ranges.
pub fn claims_can_be_sent()
    ensures { ClaimsCanBeSent }
{}

/// A law: entries of one text have the same caller, line, version and reply, where they can be written and a group that is shown can be
/// read.
pub fn one_entry()
    ensures { OneEntry }
{}

/// A law: histories of one text have the same callers, lines, versions and replies, entry by entry, where they can be written and each
/// group that is shown can be read.
pub fn one_history()
    ensures { OneHistory }
{}
