// The bounds of a lane's first rounds, worked out by hand.
//
// In each slice that it can use a telescope takes the request that is worth most beyond its net price, the first of several, if
// that is above 0: so are the uses counted, and the best of a telescope is the sum. The steps of the rounds are 50000, 25000,
// 16666, 12500, 10000, 8333, 7142 and 6250, and those of a quota's price 13, 6, 4, 3, 2, 2, 1 and 1: the same over 3,600.

ghost use Rattle.std.specs.Prelude.{◌≡◌};
ghost use Rattle.snapshot_starts.specs.Runs.{AreAllStarts};

use interval_solver::Rows;
use lanes::Lane;
use plan_base::{Op, Snapshot};
use samples::{ONE, Sample, TWO};
use snapshot_starts::{Starts, starts};
use std::alloc::{AllocError, Global};
use std::process::Abort;
use std::test::Fail;
use std::thread::Threads;

/// The bounds of the first nine rounds of a lane that has made none.
fn rounds_of(alloc: Global, lane: &mut Lane<'_>) -> Result<Vec<u64>, AllocError>
    requires { lane.old.made ≡ 0 }
{
    let mut bounds = Vec::new(alloc);
    for _ in 0..9u32 {
        bounds.push(lane.round().bound)?;
    }
    Ok(bounds)
}

/// The bounds of the first rounds of lane 0.
fn bounds_of(alloc: Global, snapshot: &Snapshot, starts: &Starts) -> Result<Vec<u64>, Fail>
    requires { AreAllStarts snapshot.now starts.now }
{
    let rows = Rows::of_all(alloc, snapshot, starts)?;
    let mut lane = Lane::new(alloc, snapshot, starts, rows.as_slice())?;
    lane.begin(0);
    let bounds = rounds_of(alloc, &mut lane);
    // Calls drop these. Else they would be dropped here, piece by piece, which the proof would have to follow.
    drop(lane);
    drop(rows);
    Ok(bounds?)
}

/// Asserts the bounds of a sample's first rounds.
fn assert_bounds<R: Abort + Threads + Sync>(
    rt: &R,
    alloc: Global,
    sample: &Sample,
    expected: &[u64],
) -> Result<(), Fail> {
    let snapshot = sample.snapshot(alloc)?;
    let starts = starts(rt, alloc, &snapshot)?;
    let bounds = bounds_of(alloc, &snapshot, &starts)?;
    assert!(rt; bounds.as_slice().starts_with(expected));
    Ok(())
}

#[test]
fn one_request_takes_its_whole_value_as_price(rt: HostRuntime) -> Result<(), Fail> {
    assert_bounds(&rt, rt.alloc(), &ONE, &[600_000, 50_000, 325_000])
}

#[test]
fn uses_are_counted_over_all_telescopes(rt: HostRuntime) -> Result<(), Fail> {
    let sample = Sample {
        telescopes: 2,
        window: (0, 300),
        ..ONE
    };
    assert_bounds(&rt, rt.alloc(), &sample, &[100_000, 50_000, 75_000])
}

#[test]
fn two_requests_share_a_telescope(rt: HostRuntime) -> Result<(), Fail> {
    let bounds = [
        600_000, 650_000, 350_000, 549_992, 399_992, 420_008, 379_988, 405_716, 369_284,
    ];
    assert_bounds(&rt, rt.alloc(), &TWO, &bounds)
}

#[test]
fn a_fading_request_is_used_while_it_is_worth_its_price(rt: HostRuntime) -> Result<(), Fail> {
    // It is worth 35,000 in its first slice, 5,000 less in each later one, and 1 in the last two.
    let sample = Sample {
        usable: (900, 3_600),
        fade: 100,
        ..ONE
    };
    let bounds = [
        140_002, 50_000, 40_000, 41_666, 35_834, 39_166, 35_000, 35_000,
    ];
    assert_bounds(&rt, rt.alloc(), &sample, &bounds)
}

#[test]
fn an_and_takes_all_or_none(rt: HostRuntime) -> Result<(), Fail> {
    let sample = Sample {
        groups: &[(Op::And, 2)],
        window: (0, 300),
        ..ONE
    };
    let bounds = [50_000, 100_000, 75_000, 58_334, 54_166, 55_834, 52_499];
    assert_bounds(&rt, rt.alloc(), &sample, &bounds)
}

#[test]
fn a_oneof_takes_the_first_of_its_greatest_price(rt: HostRuntime) -> Result<(), Fail> {
    let sample = Sample {
        groups: &[(Op::OneOf, 2)],
        telescopes: 2,
        window: (0, 300),
        ..ONE
    };
    let bounds = [100_000, 150_000, 75_000, 91_666, 79_168, 84_166, 74_167];
    assert_bounds(&rt, rt.alloc(), &sample, &bounds)
}

#[test]
fn a_quota_that_is_passed_gets_a_price(rt: HostRuntime) -> Result<(), Fail> {
    let sample = Sample {
        quota: Some(300),
        ..TWO
    };
    let bounds = [
        600_000, 650_000, 350_000, 548_792, 397_892, 417_308, 376_688, 402_116, 365_384,
    ];
    assert_bounds(&rt, rt.alloc(), &sample, &bounds)
}

#[test]
fn a_quota_that_is_not_used_up_gets_cheaper(rt: HostRuntime) -> Result<(), Fail> {
    let sample = Sample {
        groups: &[(Op::And, 2)],
        window: (0, 300),
        quota: Some(300),
        ..ONE
    };
    let bounds = [50_000, 100_000, 73_200, 55_334, 58_066, 53_300, 55_633];
    assert_bounds(&rt, rt.alloc(), &sample, &bounds)
}
