// What holds of reading and writing together.

ghost use Rattle.request_model.specs.Laws.{GroupsAreReadBack, GroupsAreInRange};

/// A law: the document of each group in the ranges is read as that group.
pub fn groups_are_read_back()
    ensures { GroupsAreReadBack }
{}

/// A law: each group that is read has its texts, numbers and counts in the ranges.
pub fn groups_are_in_range()
    ensures { GroupsAreInRange }
{}
