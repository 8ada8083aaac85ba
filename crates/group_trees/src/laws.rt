// Laws of forests. Each is a function with nothing to do, whose contract states the law of its arguments.

ghost use Rattle.std.specs.Prelude.{ℤ, pos, ◌≤ℤ◌, List};
ghost use Rattle.plan_base.specs.declared.claim.Placement.{Placement};
ghost use Rattle.plan_base.specs.Starts.{value_of_plan};
ghost use Rattle.group_trees.specs.Plans.{IsForestFeasible};
ghost use Rattle.group_trees.specs.Rebates.{IsForestBound};
ghost use Rattle.group_trees.specs.Built.{snapshot_of, trees_of};

use crate::forest::Forest;
use plan_base::Prices;

/// Weak duality with trees: whatever the prices, no plan that is feasible for the forest is worth more than the bound
/// that they give with the rebates of the trees.
pub fn forest_duality(forest: &Forest<'_>, prices: &Prices)
    ensures { (plan : List Placement) (bound : ℤ) → IsForestFeasible (snapshot_of forest.now) (trees_of forest.now) plan
        → IsForestBound (snapshot_of forest.now) (trees_of forest.now) prices.now.0 bound
        → pos (value_of_plan (snapshot_of forest.now) plan) ≤ℤ bound }
{
    forest.recall_sound();
    forest.snapshot().recall_valid();
}
