// Passes over all groups, until one adds nothing.

ghost use Rattle.std.specs.Prelude.{◌≡◌, ◌≤◌, length};
ghost use Rattle.plan_base.specs.Limits.{most_pending};
ghost use Rattle.plan_base.specs.Fill.{IsPass, IsFilled};
ghost use Rattle.repair.specs.Trials.{AreTrials};
ghost use Rattle.repair.specs.Steps.{AddsSome};

use crate::draft::Draft;
use crate::trials::Trials;
use crate::visit::visit;

/// Makes one pass over the groups. True where something is placed by it.
fn pass(draft: &mut Draft<'_>, trials: &Trials) -> bool
    requires { AreTrials draft.old.snapshot trials.now }
    ensures same { draft.new.snapshot ≡ draft.old.snapshot }
    ensures pass { IsPass draft.old.snapshot draft.old.placed draft.new.placed }
    ensures added { AddsSome result draft.old.placed draft.new.placed }
    ensures few { length draft.new.placed ≤ most_pending }
{
    let mut added = false;
    for group in &trials.order {
        if visit(draft, *group, &trials.groups[*group]) {
            added = true;
        }
    }
    draft.recall();
    added
}

/// Fills the plan: makes passes until one adds nothing.
pub(crate) fn fill(draft: &mut Draft<'_>, trials: &Trials)
    requires { AreTrials draft.old.snapshot trials.now }
    ensures same { draft.new.snapshot ≡ draft.old.snapshot }
    ensures filled { IsFilled draft.old.snapshot draft.old.placed draft.new.placed }
{
    while pass(draft, trials) {}
}
