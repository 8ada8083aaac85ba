// What a solver answers at prices: bests and starts, worked out by hand.

ghost use Rattle.std.specs.Prelude.{◌≡◌};

use interval_solver::Solver;
use plan_base::{ListOf, Placement, Prices, RequestNo, SliceNo, Snapshot, TelescopeNo};
use samples::{Desk, Groups, TelescopeWish, Wish, are_in_range};
use snapshot_starts::starts;
use std::alloc::{AllocError, Global};
use std::process::Abort;
use std::test::Fail;
use std::thread::Threads;

/// Prices, and what telescope 0 answers at them: the best, and the slice and the request of each start.
#[derive(Clone, Copy)]
struct Row<'a> {
    prices: &'a [i64],
    best: i64,
    starts: &'a [(u32, u32)],
}

/// Requests of one slice on telescope 0, which fade by this many thousandths a slice.
fn wish(fade: u16) -> Wish<'static> {
    Wish {
        seconds: 300,
        value: 50_000,
        fade,
        windows: &[(0, 3_600)],
        telescopes: &[TelescopeNo(0)],
    }
}

/// Twelve slices of five minutes on a telescope that is usable from a second on.
fn desk(alloc: Global, usable_from: u64, wishes: &[Wish]) -> Result<Box<Snapshot>, Fail> {
    let desk = Desk {
        len: 300,
        first: 0,
        slices: 12,
        telescopes: &[TelescopeWish {
            usable: &[(usable_from, 3_600)],
        }],
        groups: Groups::Singles(wishes),
        quotas: &[],
    };
    Ok(desk.snapshot(alloc)?)
}

fn placements(alloc: Global, starts: &[(u32, u32)]) -> Result<Vec<Placement>, AllocError> {
    let mut placements = Vec::new(alloc);
    for (slice, request) in starts {
        placements.push(Placement {
            request: RequestNo(*request),
            telescope: TelescopeNo(0),
            slice: SliceNo(*slice),
        })?;
    }
    Ok(placements)
}

/// Asserts what the solver of the snapshot answers.
fn assert_row(
    rt: &impl Abort,
    alloc: Global,
    snapshot: &Snapshot,
    solver: &mut Solver<'_>,
    row: &Row,
) -> Result<(), Fail>
    requires { solver.old.snapshot ≡ snapshot.now }
    ensures { solver.new.snapshot ≡ solver.old.snapshot }
{
    let prices = Prices(ListOf::from_vec(Vec::from_slice(alloc, row.prices)?));
    if prices.0.len() != snapshot.request_count() || !are_in_range(prices.0.as_slice()) {
        return Err(Fail::new("the prices don't fit"));
    }
    assert_eq!(rt; solver.solve(&prices), row.best);
    assert_eq!(rt; solver.chosen(), placements(alloc, row.starts)?.as_slice());
    Ok(())
}

/// Asserts the rows of the snapshot, one after another with the same solver.
fn assert_rows<R: Threads + Sync + Abort>(
    rt: &R,
    alloc: Global,
    snapshot: &Snapshot,
    rows: &[Row],
) -> Result<(), Fail> {
    let list = starts(rt, alloc, snapshot)?;
    let mut solver = Solver::new(alloc, TelescopeNo(0), snapshot, &list)?;
    for row in rows {
        assert_row(rt, alloc, snapshot, &mut solver, row)?;
    }
    Ok(())
}

#[test]
fn the_lowest_of_two_requests_starts_in_each_slice(rt: HostRuntime) -> Result<(), Fail> {
    let alloc = rt.alloc();
    let row = Row {
        prices: &[25_000, 25_000],
        best: 300_000,
        starts: &[
            (0, 1),
            (1, 1),
            (2, 1),
            (3, 1),
            (4, 1),
            (5, 1),
            (6, 1),
            (7, 1),
            (8, 1),
            (9, 1),
            (10, 1),
            (11, 1),
        ],
    };
    let snapshot = desk(alloc, 0, &[wish(0), wish(0)])?;
    assert_rows(&rt, alloc, &snapshot, &[row])
}

#[test]
fn a_fading_request_starts_where_it_gains(rt: HostRuntime) -> Result<(), Fail> {
    let alloc = rt.alloc();
    let rows = [
        Row {
            prices: &[50_000],
            best: 0,
            starts: &[],
        },
        Row {
            prices: &[25_000],
            best: 15_000,
            starts: &[(3, 1), (4, 1)],
        },
        Row {
            prices: &[41_666],
            best: 0,
            starts: &[],
        },
        Row {
            prices: &[29_166],
            best: 6_668,
            starts: &[(3, 1), (4, 1)],
        },
        Row {
            prices: &[30_833],
            best: 4_167,
            starts: &[(3, 1)],
        },
    ];
    let snapshot = desk(alloc, 900, &[wish(100)])?;
    assert_rows(&rt, alloc, &snapshot, &rows)
}
