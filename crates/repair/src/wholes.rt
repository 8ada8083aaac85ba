// ANDs that are added whole by the first start of each member.

ghost use Rattle.std.specs.Prelude.{◌≡◌, ◌<◌, List, length, slice_index_or, All, Some, None};
ghost use Rattle.plan_base.specs.declared.claim.Placement.{Placement};
ghost use Rattle.plan_base.specs.Starts.{IsPossibleStart};
ghost use Rattle.plan_base.specs.Feasible.{IsFeasible};
ghost use Rattle.plan_base.specs.Repaired.{AddsWholes, group_places};
ghost use Rattle.repair.specs.Entries.{IsEntry, numbers_of};
ghost use Rattle.repair.specs.Trials.{IsTrial, AreTrials};
ghost use Rattle.repair.specs.Firsts.{AreFirsts, AreOwn};
ghost use Rattle.repair.specs.Repairs.{AddsWhole, AddsFirst, AddsAllOrNone, PlacesAllOrNone};

use crate::draft::Draft;
use crate::entry::Entry;
use crate::trials::{Trial, Trials};
use plan_base::{Op, Placement};

/// Adds each AND, in the order of the groups, whose members all have a first start, if all of these can be added.
pub(crate) fn add_wholes(draft: &mut Draft<'_>, trials: &Trials, firsts: &[Option<Placement>])
    requires trials { AreTrials draft.old.snapshot trials.now }
    requires feasible { IsFeasible draft.old.snapshot draft.old.placed }
    requires own { AreOwn draft.old.snapshot firsts.now }
    ensures same { draft.new.snapshot ≡ draft.old.snapshot }
    ensures feasible { IsFeasible draft.old.snapshot draft.new.placed }
    ensures adds { (starts : List Placement) → AreFirsts draft.old.snapshot starts firsts.now
        → AddsWholes draft.old.snapshot starts draft.old.placed (group_places draft.old.snapshot) draft.new.placed }
{
    for group in 0..trials.groups.len() {
        add_whole(draft, group, &trials.groups[group], firsts);
    }
}

/// Adds the group at a place, if it is an AND and the first starts of all its members can be added.
fn add_whole(draft: &mut Draft<'_>, group: usize, trial: &Trial, firsts: &[Option<Placement>])
    requires group { group < length draft.old.snapshot.groups }
    requires trial { IsTrial draft.old.snapshot group trial.now }
    requires feasible { IsFeasible draft.old.snapshot draft.old.placed }
    requires own { AreOwn draft.old.snapshot firsts.now }
    ensures same { draft.new.snapshot ≡ draft.old.snapshot }
    ensures feasible { IsFeasible draft.old.snapshot draft.new.placed }
    ensures adds { (starts : List Placement) → AreFirsts draft.old.snapshot starts firsts.now
        → AddsWhole draft.old.snapshot starts draft.old.placed group draft.new.placed }
{
    draft.recall();
    match trial.op {
        Op::And => add_all(draft, &trial.entries, firsts),
        Op::Single | Op::Many | Op::OneOf => {}
    }
}

/// Adds the first starts of all these requests, or none if one has no start that can be added beside those before it.
fn add_all(draft: &mut Draft<'_>, entries: &[Entry], firsts: &[Option<Placement>])
    requires entries { All (IsEntry draft.old.snapshot) entries.now }
    requires own { AreOwn draft.old.snapshot firsts.now }
    ensures same { draft.new.snapshot ≡ draft.old.snapshot }
    ensures placed { PlacesAllOrNone draft.old.snapshot draft.old.placed (numbers_of entries.now) draft.new.placed }
    ensures adds { (starts : List Placement) → AreFirsts draft.old.snapshot starts firsts.now
        → AddsAllOrNone draft.old.snapshot starts draft.old.placed (numbers_of entries.now) draft.new.placed }
{
    let count = draft.placed().len();
    for entry in entries {
        let first = first_of(firsts, entry.place);
        if !add_first(draft, first) {
            draft.truncate(count);
            return;
        }
    }
    draft.recall();
}

/// What is noted at a place.
fn first_of(firsts: &[Option<Placement>], place: usize) -> Option<Placement>
    requires { place < length firsts.now }
    ensures { result ≡ slice_index_or firsts.now place None }
{
    firsts[place]
}

/// Adds a start, if there is one and it can be added. True where it is.
fn add_first(draft: &mut Draft<'_>, first: Option<Placement>) -> bool
    requires { (p : Placement) → first ≡ Some p → IsPossibleStart draft.old.snapshot p }
    ensures same { draft.new.snapshot ≡ draft.old.snapshot }
    ensures adds { AddsFirst draft.old.snapshot draft.old.placed first result draft.new.placed }
{
    let Some(start) = first else {
        return false;
    };
    if !draft.can_add(start) {
        return false;
    }
    draft.add(start);
    true
}
