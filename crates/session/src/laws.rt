//! Laws of sessions, each the contract of a function that does nothing.
ghost use Rattle.session.specs.Laws.{TextHasOneHistory, PlansArePublished, ExportsAreChecked, LinesHaveOneSummary, NumberHasOneSummary, RunsWriteOneLine};
ghost use Rattle.session.specs.Published.{ExportsAreLast, ExportLinesAreAnswered};

/// A law: what a session writes of its callers' lines tells the history that it is the text of: no other legal history of the same lines
/// has that text.
pub fn one_history()
    ensures { TextHasOneHistory }
{}

/// A law: of one caller's lines each plan is published, or there are too many possible starts, whose exact count is told. None is
/// stale, and none rejected.
pub fn plans_are_published()
    ensures { PlansArePublished }
{}

/// A law: what a session writes for an `export` line is read as the claim and the snapshot that its reply has, and the verdict on it
/// is Yes, with the claim's value and bound.
pub fn exports_are_checked()
    ensures { ExportsAreChecked }
{}

/// A law: an entry that exports a claim and a snapshot exports the claim that was published last before it, and the snapshot that it
/// was published for. So each `export` line is answered, but that it is refused while no claim is published.
pub fn exports_are_last()
    ensures shown { ExportsAreLast }
    ensures lines { ExportLinesAreAnswered }
{}

/// A law: what is written of a workload is a function of its number, though its workers may find different plans.
pub fn one_summary()
    ensures lines { LinesHaveOneSummary }
    ensures number { NumberHasOneSummary }
    ensures written { RunsWriteOneLine }
{}
