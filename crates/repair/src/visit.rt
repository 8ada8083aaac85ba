// What a pass does at a group.

ghost use Rattle.std.specs.Prelude.{◌≡◌, ◌≢◌, ℕ, ◌<◌, length, All, AllPairs, Contains};
ghost use Rattle.plan_base.specs.declared.parts.Op.TheVariants.{OneOf, And};
ghost use Rattle.plan_base.specs.Requests.{IsKind, members};
ghost use Rattle.plan_base.specs.Feasible.{requests_of, AreOfOneOneOf};
ghost use Rattle.plan_base.specs.Fill.{TriesOne, TriesEach, TriesUntilOne, TakesAllOrNone, IsMemberOrder, VisitsGroup};
ghost use Rattle.repair.specs.Entries.{IsEntry, numbers_of};
ghost use Rattle.repair.specs.Trials.{IsTrial};
ghost use Rattle.repair.specs.Steps.{AddsSome, Places};

use crate::draft::Draft;
use crate::entry::Entry;
use crate::find::earliest;
use crate::trials::Trial;
use plan_base::Op;

/// Gives a request that isn't placed its earliest free start. False where it has none, and then nothing changes.
pub(crate) fn place(draft: &mut Draft<'_>, entry: &Entry) -> bool
    requires entry { IsEntry draft.old.snapshot entry.now }
    requires unplaced { ¬ (Contains (requests_of draft.old.placed) entry.now.request.0) }
    requires alone { All (λ r. ¬ (AreOfOneOneOf draft.old.snapshot r entry.now.request.0)) (requests_of draft.old.placed) }
    ensures same { draft.new.snapshot ≡ draft.old.snapshot }
    ensures placed { Places draft.old.snapshot draft.old.placed entry.now.request.0 result draft.new.placed }
{
    draft.recall();
    let Some(start) = earliest(draft, entry) else {
        return false;
    };
    if !draft.can_add(start) {
        return false;
    }
    draft.add(start);
    true
}

/// Tries a request of a SINGLE or a MANY. True where it is placed by this.
fn try_one(draft: &mut Draft<'_>, entry: &Entry) -> bool
    requires entry { IsEntry draft.old.snapshot entry.now }
    requires alone { All (λ r. ¬ (AreOfOneOneOf draft.old.snapshot r entry.now.request.0)) (requests_of draft.old.placed) }
    ensures same { draft.new.snapshot ≡ draft.old.snapshot }
    ensures tries { TriesOne draft.old.snapshot draft.old.placed entry.now.request.0 draft.new.placed }
    ensures added { AddsSome result draft.old.placed draft.new.placed }
{
    if draft.is_placed(entry.request) {
        return false;
    }
    place(draft, entry)
}

/// Tries the requests of a SINGLE or a MANY one after another. True where one is placed by this.
fn try_each(draft: &mut Draft<'_>, entries: &[Entry]) -> bool
    requires entries { All (IsEntry draft.old.snapshot) entries.now }
    requires alone { All (λ r. (a : ℕ) → ¬ (AreOfOneOneOf draft.old.snapshot a r)) (numbers_of entries.now) }
    ensures same { draft.new.snapshot ≡ draft.old.snapshot }
    ensures tries { TriesEach draft.old.snapshot draft.old.placed (numbers_of entries.now) draft.new.placed }
    ensures added { AddsSome result draft.old.placed draft.new.placed }
{
    let mut added = false;
    for entry in entries {
        if try_one(draft, entry) {
            added = true;
        }
    }
    added
}

/// Tries the requests of a ONEOF of which none is placed, until one is placed. True where one is.
fn try_until_one(draft: &mut Draft<'_>, entries: &[Entry]) -> bool
    requires entries { All (IsEntry draft.old.snapshot) entries.now }
    requires unplaced { All (λ r. ¬ (Contains (requests_of draft.old.placed) r)) (numbers_of entries.now) }
    requires alone { All (λ r. All (λ a. ¬ (AreOfOneOneOf draft.old.snapshot a r)) (requests_of draft.old.placed)) (numbers_of entries.now) }
    ensures same { draft.new.snapshot ≡ draft.old.snapshot }
    ensures tries { TriesUntilOne draft.old.snapshot draft.old.placed (numbers_of entries.now) draft.new.placed }
    ensures added { AddsSome result draft.old.placed draft.new.placed }
{
    for entry in entries {
        if place(draft, entry) {
            return true;
        }
    }
    false
}

/// Places all requests of an AND of which none is placed, each at its earliest free start beside those before it. False
/// where one has none, and then nothing changes.
fn take_all(draft: &mut Draft<'_>, entries: &[Entry]) -> bool
    requires some { 0 < length entries.now }
    requires entries { All (IsEntry draft.old.snapshot) entries.now }
    requires once { AllPairs (λ a b. a ≢ b) (numbers_of entries.now) }
    requires unplaced { All (λ r. ¬ (Contains (requests_of draft.old.placed) r)) (numbers_of entries.now) }
    requires alone { All (λ r. (a : ℕ) → ¬ (AreOfOneOneOf draft.old.snapshot a r)) (numbers_of entries.now) }
    ensures same { draft.new.snapshot ≡ draft.old.snapshot }
    ensures takes { TakesAllOrNone draft.old.snapshot draft.old.placed (numbers_of entries.now) draft.new.placed }
    ensures added { AddsSome result draft.old.placed draft.new.placed }
{
    let count = draft.placed().len();
    for entry in entries {
        if !place(draft, entry) {
            draft.truncate(count);
            return false;
        }
    }
    true
}

/// Visits the group at a place. True where something is placed by this.
pub(crate) fn visit(draft: &mut Draft<'_>, group: usize, trial: &Trial) -> bool
    requires group { group < length draft.old.snapshot.groups }
    requires trial { IsTrial draft.old.snapshot group trial.now }
    ensures same { draft.new.snapshot ≡ draft.old.snapshot }
    ensures visits { VisitsGroup draft.old.snapshot draft.old.placed group draft.new.placed }
    ensures added { AddsSome result draft.old.placed draft.new.placed }
{
    draft.recall();
    match trial.op {
        Op::Single | Op::Many => try_each(draft, &trial.entries),
        Op::OneOf => visit_oneof(draft, group, &trial.entries),
        Op::And => visit_and(draft, group, &trial.entries),
    }
}

/// Visits the ONEOF at a place, which is left as it is where one of its requests is placed.
fn visit_oneof(draft: &mut Draft<'_>, group: usize, entries: &[Entry]) -> bool
    requires group { group < length draft.old.snapshot.groups }
    requires kind { IsKind draft.old.snapshot OneOf group }
    requires entries { All (IsEntry draft.old.snapshot) entries.now }
    requires order { IsMemberOrder draft.old.snapshot group (numbers_of entries.now) }
    ensures same { draft.new.snapshot ≡ draft.old.snapshot }
    ensures visits { VisitsGroup draft.old.snapshot draft.old.placed group draft.new.placed }
    ensures added { AddsSome result draft.old.placed draft.new.placed }
{
    if !draft.has_none_placed(group) {
        return false;
    }
    try_until_one(draft, entries)
}

/// Visits the AND at a place, which is left as it is where one of its requests is placed.
fn visit_and(draft: &mut Draft<'_>, group: usize, entries: &[Entry]) -> bool
    requires group { group < length draft.old.snapshot.groups }
    requires kind { IsKind draft.old.snapshot And group }
    requires entries { All (IsEntry draft.old.snapshot) entries.now }
    requires order { numbers_of entries.now ≡ members draft.old.snapshot group }
    ensures same { draft.new.snapshot ≡ draft.old.snapshot }
    ensures visits { VisitsGroup draft.old.snapshot draft.old.placed group draft.new.placed }
    ensures added { AddsSome result draft.old.placed draft.new.placed }
{
    draft.recall();
    if !draft.has_none_placed(group) {
        return false;
    }
    take_all(draft, entries)
}
