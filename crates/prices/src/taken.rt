// Which requests the groups take.

ghost use Rattle.std.specs.Prelude.{◌≡◌, ◌+◌, ◌≤◌, ◌<◌, ℕ, false, length, slice_index, slice_index_or};
ghost use Rattle.plan_base.specs.Limits.{most_members};
ghost use Rattle.plan_base.specs.Requests.{listed, members};
ghost use Rattle.plan_base.specs.Bound.{price};
ghost use Rattle.plan_base.specs.Round.{is_taken};
ghost use Rattle.plan_base.specs.NetPrices.{IsGroupRun};
ghost use Rattle.groups.specs.Takings.{takes_at};
ghost use Rattle.prices.specs.Takings.{AreTaken};

use groups::{Taking, member_count};
use plan_base::{Op, Snapshot};

/// Writes for each request whether its group takes it at the net prices. What each group takes is sought once.
pub(crate) fn write_taken(snapshot: &Snapshot, net: &[i64], taken: &mut [bool])
    requires count { length net.now ≡ length (listed snapshot.now) }
    requires room { length (listed snapshot.now) ≤ length taken.old }
    ensures count { length taken.new ≡ length taken.old }
    ensures taken { AreTaken snapshot.now (price snapshot.now net.now) taken.new }
{
    let mut first = 0;
    for group in 0..snapshot.parts().groups.len() {
        write_group(snapshot, group, first, net, taken);
        first += member_count(snapshot, group);
    }
}

/// Writes which requests are taken of the group at a place, whose requests begin at another.
fn write_group(snapshot: &Snapshot, group: usize, first: usize, net: &[i64], taken: &mut [bool])
    requires group { group < length snapshot.now.groups }
    requires run { IsGroupRun snapshot.now group first }
    requires count { length net.now ≡ length (listed snapshot.now) }
    requires room { length (listed snapshot.now) ≤ length taken.old }
    ensures count { length taken.new ≡ length taken.old }
    ensures before { (k : ℕ) → k < first → slice_index_or taken.new k false ≡ slice_index_or taken.old k false }
    ensures group { (i : ℕ) → i < length (members snapshot.now group)
        → slice_index_or taken.new (first + i) false ≡ is_taken snapshot.now (price snapshot.now net.now) (slice_index (members snapshot.now group) i) }
{
    let op = snapshot.parts().groups.as_slice()[group].op;
    let count = member_count(snapshot, group);
    write_members(op, &net[first..first + count], first, taken);
}

/// Writes from a place on which requests a group of this kind takes at their net prices.
fn write_members(op: Op, prices: &[i64], first: usize, taken: &mut [bool])
    requires some { 0 < length prices.now }
    requires few { length prices.now ≤ most_members }
    requires room { first + length prices.now ≤ length taken.old }
    ensures count { length taken.new ≡ length taken.old }
    ensures before { (k : ℕ) → k < first → slice_index_or taken.new k false ≡ slice_index_or taken.old k false }
    ensures group { (i : ℕ) → i < length prices.now → slice_index_or taken.new (first + i) false ≡ takes_at op prices.now i }
{
    let taking = Taking::at(op, prices);
    for place in 0..prices.len() {
        taken[first + place] = taking.takes(prices[place], place);
    }
}
