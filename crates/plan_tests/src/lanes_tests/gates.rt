// Which rounds are made, seen at the points that workers pass.

ghost use Rattle.lanes.specs.Solving.{IsInRange};

use lanes::solve_plan;
use plan_base::{Claim, Outcome, Settings, Snapshot, Solved, Taken};
use plan_io::{Gate, Point};
use samples::{ONE, Sample, TWO};
use std::alloc::Global;
use std::hint::spin_loop;
use std::sync::atomic::{AtomicU32, Ordering};
use std::test::Fail;
use std::thread::Threads;

/// How often a hold turns at most.
const MOST_TURNS: u32 = 100_000_000;

/// Neither of two is held.
const NO_WAITS: (u32, u32) = (0, 0);

/// Counts points of two, and holds each of the two at its first one until the other has passed as many as are waited for.
#[derive(Drop)]
struct Holds {
    first: AtomicU32,
    second: AtomicU32,
    /// How many points of the second are waited for at the first one of the first, and the other way round.
    waits: (u32, u32),
}

impl Holds {
    fn new(waits: (u32, u32)) -> Holds {
        Holds {
            first: AtomicU32::new(0),
            second: AtomicU32::new(0),
            waits,
        }
    }

    /// The points of both.
    fn points(&self) -> (u32, u32) {
        (
            self.first.load(Ordering::SeqCst),
            self.second.load(Ordering::SeqCst),
        )
    }

    /// Counts a point, of the first where the number is 0, and holds it. False where that runs out of turns.
    fn pass(&self, number: u32) -> bool {
        let (own, other, least) = if number == 0 {
            (&self.first, &self.second, self.waits.0)
        } else {
            (&self.second, &self.first, self.waits.1)
        };
        own.fetch_add(1, Ordering::SeqCst) > 0 || wait(other, least)
    }
}

/// Waits until there are so many points. False where there are fewer after all turns.
fn wait(points: &AtomicU32, least: u32) -> bool {
    for _ in 0..MOST_TURNS {
        if points.load(Ordering::SeqCst) >= least {
            return true;
        }
        spin_loop();
    }
    false
}

/// Counts the points of two lanes and of two workers, and holds them at their first ones.
#[derive(Drop)]
struct Counter {
    lanes: Holds,
    workers: Holds,
    /// How many holds ran out of turns.
    late: AtomicU32,
}

impl Counter {
    fn new(lanes: Holds, workers: Holds) -> Counter {
        Counter {
            lanes,
            workers,
            late: AtomicU32::new(0),
        }
    }

    /// How many holds ran out of turns.
    fn late(&self) -> u32 {
        self.late.load(Ordering::SeqCst)
    }
}

impl Gate for Counter {
    fn pass(&self, point: Point) {
        let Point::AfterRound { worker, lane, .. } = point else {
            return;
        };
        let lane_in_time = self.lanes.pass(lane);
        let worker_in_time = self.workers.pass(worker);
        if !lane_in_time || !worker_in_time {
            self.late.fetch_add(1, Ordering::SeqCst);
        }
    }
}

/// One request of the first slice on two telescopes.
const EARLY: Sample = Sample {
    telescopes: 2,
    window: (0, 300),
    ..ONE
};

/// One lane of eight rounds, on one worker.
const ALONE: Settings = Settings {
    lanes: 1,
    rounds: 8,
    workers: 1,
};

/// Two lanes of eight rounds, on two workers.
const APART: Settings = Settings {
    lanes: 2,
    rounds: 8,
    workers: 2,
};

/// What is found for a snapshot.
fn solve<R: Threads + Sync, G: Gate>(
    rt: &R,
    alloc: Global,
    snapshot: Box<Snapshot>,
    settings: Settings,
    gate: &G,
) -> Result<Box<Solved>, Fail>
    requires { IsInRange settings }
{
    let taken = Taken {
        caller: 0,
        settings,
        snapshot: Box::into_inner(snapshot),
    };
    Ok(Box::new(alloc, solve_plan(rt, alloc, taken, gate)?)?)
}

/// The claim that was found.
fn claim_of(solved: &Solved) -> Result<&Claim, Fail> {
    match solved.outcome() {
        Outcome::Plan(claim) => Ok(claim),
        Outcome::TooManyStarts(_) => Err(Fail::new("too many starts")),
    }
}

#[test]
fn a_lane_stops_where_bound_and_value_meet(rt: HostRuntime) -> Result<(), Fail> {
    let snapshot = EARLY.snapshot(rt.alloc())?;
    let counter = Counter::new(Holds::new(NO_WAITS), Holds::new(NO_WAITS));
    let _ = solve(&rt, rt.alloc(), snapshot, ALONE, &counter)?;
    assert_eq!(rt; counter.lanes.points(), (2, 0));
    Ok(())
}

#[test]
fn a_lane_stops_where_another_has_met(rt: HostRuntime) -> Result<(), Fail> {
    let snapshot = EARLY.snapshot(rt.alloc())?;
    let counter = Counter::new(Holds::new((1, 2)), Holds::new(NO_WAITS));
    let solved = solve(&rt, rt.alloc(), snapshot, APART, &counter)?;
    assert_eq!(rt; counter.late(), 0);
    assert_eq!(rt; counter.lanes.points(), (2, 1));
    let claim = claim_of(&solved)?;
    assert_eq!(rt; (claim.bound, claim.value), (50_000, 50_000));
    Ok(())
}

#[test]
fn two_workers_run_at_once(rt: HostRuntime) -> Result<(), Fail> {
    let snapshot = TWO.snapshot(rt.alloc())?;
    let counter = Counter::new(Holds::new(NO_WAITS), Holds::new((1, 1)));
    let _ = solve(&rt, rt.alloc(), snapshot, APART, &counter)?;
    assert_eq!(rt; counter.late(), 0);
    assert_eq!(rt; counter.workers.points(), (8, 8));
    assert_eq!(rt; counter.lanes.points(), (8, 8));
    Ok(())
}
