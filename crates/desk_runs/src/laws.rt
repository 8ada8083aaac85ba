// What is so of every state; these functions do nothing.

ghost use Rattle.desk_runs.specs.Laws.{Settles, KeepsSound, ReportKeepsSound, WithdrawalKeepsSound, NewGroupKeepsSound};
ghost use Rattle.desk_runs.specs.Laws.{PublicationKeepsSound, MomentGoesOn, ReportGoesOn, WithdrawalGoesOn};
ghost use Rattle.desk_runs.specs.Laws.{MomentLeavesOver, ReportLeavesOver, WithdrawalLeavesOver, WithdrawalCommutes};

/// What a moment leaves is settled: the same moment would change nothing more.
pub fn a_moment_settles()
    ensures { Settles }
{}

/// A sound state is sound after another moment.
pub fn a_moment_keeps_sound()
    ensures { KeepsSound }
{}

/// And after a report on a running request, a withdrawal of a group of which no request runs, a new group whose windows
/// have not passed, and a publication that may be made.
pub fn changes_keep_sound()
    ensures report { ReportKeepsSound }
    ensures withdrawal { WithdrawalKeepsSound }
    ensures new_group { NewGroupKeepsSound }
    ensures publication { PublicationKeepsSound }
{}

/// After a moment, a report or a withdrawal no request is pending again, and none is observed twice where none was.
pub fn groups_only_go_on()
    ensures moment { MomentGoesOn }
    ensures report { ReportGoesOn }
    ensures withdrawal { WithdrawalGoesOn }
{}

/// After a moment, a report on a running request or a withdrawal each request that isn't pending is in the state that it
/// was in.
pub fn what_is_over_stays()
    ensures moment { MomentLeavesOver }
    ensures report { ReportLeavesOver }
    ensures withdrawal { WithdrawalLeavesOver }
{}

/// A group that is there may be withdrawn before another is added, or after.
pub fn a_withdrawal_commutes()
    ensures { WithdrawalCommutes }
{}
