// How far prices move in a round.

ghost use Rattle.std.specs.Prelude.{◌≡◌, ◌<◌, ◌^◌, pos};
ghost use Rattle.plan_base.specs.Limits.{most_rounds, most_lanes};
ghost use Rattle.plan_base.specs.Round.{step_of, quota_step};
ghost use Rattle.prices.specs.Rounds.{step_size};

/// The seconds in an hour: a quota is counted in seconds, and its price moves by a step over this.
const HOUR: u64 = 3600;

/// The subgradient step of a lane's round, both counted from 0, the lane below 8 and the round below 256: `vmax`, the
/// greatest value of a request, halved once for each lane before this one and shared by the rounds up to this one,
/// rounded down, but at least 1.
pub fn step_of(lane: u32, round: u32, vmax: u32) -> i64
    requires lane { lane < most_lanes }
    requires round { round < most_rounds }
    ensures { result ≡ pos (step_of lane round vmax) }
{
    let shares = 2u32.pow(lane) * (round + 1);
    i64::from((vmax / shares).max(1))
}

/// How far a step goes up: 0 where it is negative.
pub(crate) fn step_size(step: i64) -> u64
    ensures size { result ≡ step_size step }
    ensures fits { result < 2 ^ 63 }
{
    step.max(0).unsigned_abs()
}

/// The step of quota prices that goes with a step: the step over 3,600, rounded down, but at least 1.
pub(crate) fn quota_step(step: u64) -> u64
    ensures { result ≡ quota_step step }
{
    (step / HOUR).max(1)
}
