// Laws of the workload, each the contract of a function that does nothing.

ghost use Rattle.workload.specs.Lines.{HasSoManyLines, HasSoManyRequests, AreReadBack};

/// A law: a workload has 211 lines.
pub fn so_many_lines()
    ensures { HasSoManyLines }
{}

/// A law: the groups of a workload have 120 requests in all.
pub fn so_many_requests()
    ensures { HasSoManyRequests }
{}

/// A law: each line is read as the document that it is the text of.
pub fn lines_are_read_back()
    ensures { AreReadBack }
{}
