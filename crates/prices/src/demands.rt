// How many seconds of each quota are demanded.

ghost use Rattle.std.specs.Prelude.{◌≡◌, ◌≤◌, ◌<◌, ◌+◌, ◌^◌, ℕ, ℤ, length, map, slice_index_or};
ghost use Rattle.plan_base.specs.Limits.{most_seconds};
ghost use Rattle.plan_base.specs.Requests.{listed};
ghost use Rattle.plan_base.specs.Round.{demand_of};
ghost use Rattle.groups.specs.Tables.{towards};
ghost use Rattle.prices.specs.Takings.{AreTaken};

use groups::add_seconds;
use plan_base::Snapshot;

/// Adds for each quota the seconds of the requests that are taken in groups that name it.
pub(crate) fn add_demands(snapshot: &Snapshot, taken: &[bool], demands: &mut [u64])
    requires taken { length (listed snapshot.now) ≤ length taken.now }
    requires room { length snapshot.now.quotas ≤ length demands.old }
    requires none { (q : ℕ) → slice_index_or demands.old q 0 ≡ 0 }
    ensures count { length demands.new ≡ length demands.old }
    ensures demand { (c : ℕ → ℤ) (q : ℕ) → AreTaken snapshot.now c taken.now → slice_index_or demands.new q 0 ≡ demand_of snapshot.now c q }
{
    for place in 0..snapshot.request_count() {
        if taken[place] {
            add_request(snapshot, place, demands);
        }
    }
}

/// Adds the seconds of the request at a place to the quota that its group names, if it names one.
fn add_request(snapshot: &Snapshot, place: usize, demands: &mut [u64])
    requires place { place < length (listed snapshot.now) }
    requires room { length snapshot.now.quotas ≤ length demands.old }
    requires small { (q : ℕ) → slice_index_or demands.old q 0 + most_seconds < 2 ^ 64 }
    ensures count { length demands.new ≡ length demands.old }
    ensures added { (q : ℕ) → slice_index_or demands.new q 0 ≡ slice_index_or demands.old q 0
        + slice_index_or (map (λ x. towards x.quota x.request.seconds q) (listed snapshot.now)) place 0 }
    ensures few { (q : ℕ) → slice_index_or demands.new q 0 ≤ slice_index_or demands.old q 0 + most_seconds }
{
    let seconds = snapshot.request_at(place).seconds;
    let group = &snapshot.parts().groups.as_slice()[snapshot.group_at(place)];
    add_seconds(demands, group.quota, u64::from(seconds));
}
