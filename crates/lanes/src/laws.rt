// A law of planned claims, the contract of a function that does nothing.

ghost use Rattle.lanes.specs.Laws.{WorkersAgree};

/// A law: claims that are planned for one snapshot with as many lanes and rounds have one bound and one value, whatever the
/// number of workers.
pub fn workers_agree()
    ensures { WorkersAgree }
{}
