// Laws of texts, each the contract of a function that does nothing.

ghost use Rattle.plan_json.specs.TextLaws.{TextsAreReadBack, LinesAreReadBack, TextsAreDistinct, LinesAreDistinct};

/// A law: what is written is read as what was written.
pub fn texts_are_read_back()
    ensures { TextsAreReadBack }
{}

/// A law: what is written is read as what was written where a newline follows it, too.
pub fn lines_are_read_back()
    ensures { LinesAreReadBack }
{}

/// A law: data whose numbers are whole, with one text, are the same.
pub fn texts_are_distinct()
    ensures { TextsAreDistinct }
{}

/// A law: of texts with a newline after each, the first and what follows it are the same where the whole is the same.
pub fn lines_are_distinct()
    ensures { LinesAreDistinct }
{}
