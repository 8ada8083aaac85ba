// Steps, worked out by hand.

ghost use Rattle.std.specs.Prelude.{◌<◌};

use prices::step_of;
use std::test::Fail;

/// A lane, a round, the greatest value of a request, and the step.
#[derive(Clone, Copy)]
struct Step {
    lane: u32,
    round: u32,
    greatest: u32,
    step: i64,
    ghost lanes: { lane < 8 },
    ghost rounds: { round < 256 },
}

fn at(lane: u32, round: u32, greatest: u32, step: i64) -> Step
    requires lanes { lane < 8 }
    requires rounds { round < 256 }
{
    Step {
        lane,
        round,
        greatest,
        step,
    }
}

#[test]
fn steps_are_shared_by_rounds_and_halved_by_lanes(rt: HostRuntime) -> Result<(), Fail> {
    let steps = [
        at(0, 0, 50_000, 50_000),
        at(0, 1, 50_000, 25_000),
        at(0, 2, 50_000, 16_666),
        at(0, 7, 50_000, 6_250),
        at(1, 0, 50_000, 25_000),
        at(3, 2, 50_000, 2_083),
        at(7, 255, 288_000_000, 8_789),
        at(7, 255, 32_768, 1),
        at(7, 255, 32_767, 1),
        at(0, 0, 0, 1),
        at(0, 0, u32::MAX, 4_294_967_295),
    ];
    for step in steps {
        assert_eq!(rt; step_of(step.lane, step.round, step.greatest), step.step);
    }
    Ok(())
}
