// Greedy plans.

use super::{BOTH, DISH, WISH, counted, group_of, listed, snapshot_of};
use plan_base::{Op, Snapshot};
use repair::greedy;
use samples::Wish;
use snapshot_starts::starts;
use std::alloc::Global;
use std::process::Abort;
use std::test::Fail;
use std::thread::Threads;

fn assert_greedy<R: Threads + Sync + Abort>(
    rt: &R,
    alloc: Global,
    snapshot: &Snapshot,
    expected: &[(u32, u16, u32)],
) -> Result<(), Fail> {
    let starts = starts(rt, alloc, snapshot)?;
    let plan = greedy(alloc, snapshot, &starts)?;
    let plan = listed(alloc, &plan)?;
    assert_eq!(rt; plan.as_slice(), expected);
    Ok(())
}

#[test]
fn oneof_is_placed_once_on_the_lowest_telescope(rt: HostRuntime) -> Result<(), Fail> {
    let wish = Wish {
        windows: &[(0, 300)],
        telescopes: BOTH,
        ..WISH
    };
    let wishes = [wish, wish];
    let groups = [group_of(Op::OneOf, &wishes)];
    let snapshot = snapshot_of(rt.alloc(), &[DISH, DISH], &groups, &[])?;
    assert_greedy(&rt, rt.alloc(), &snapshot, &[(1, 0, 0)])
}

#[test]
fn greater_value_of_a_oneof_goes_first(rt: HostRuntime) -> Result<(), Fail> {
    let greater = Wish {
        value: 60_000,
        ..WISH
    };
    let wishes = [WISH, greater];
    let groups = [group_of(Op::OneOf, &wishes)];
    let snapshot = snapshot_of(rt.alloc(), &[DISH], &groups, &[])?;
    assert_greedy(&rt, rt.alloc(), &snapshot, &[(2, 0, 0)])
}

#[test]
fn and_with_a_member_without_a_start_leaves_nothing(rt: HostRuntime) -> Result<(), Fail> {
    let long = Wish {
        seconds: 600,
        ..WISH
    };
    let longest = Wish {
        seconds: 900,
        windows: &[(0, 1_200)],
        ..WISH
    };
    let small = Wish { value: 10, ..WISH };
    let members = [WISH, long, longest];
    let single = [small];
    let groups = [group_of(Op::And, &members), group_of(Op::Single, &single)];
    let snapshot = snapshot_of(rt.alloc(), &[DISH], &groups, &[])?;
    assert_greedy(&rt, rt.alloc(), &snapshot, &[(4, 0, 0)])
}

#[test]
fn quota_is_kept(rt: HostRuntime) -> Result<(), Fail> {
    let first = [Wish { value: 10, ..WISH }];
    let second = [Wish { value: 20, ..WISH }];
    let groups = [counted(&first), counted(&second)];
    let snapshot = snapshot_of(rt.alloc(), &[DISH], &groups, &[300])?;
    assert_greedy(&rt, rt.alloc(), &snapshot, &[(2, 0, 0)])
}

#[test]
fn gaps_are_found(rt: HostRuntime) -> Result<(), Fail> {
    let longest = Wish {
        seconds: 900,
        value: 80_000,
        windows: &[(1_200, 2_100)],
        ..WISH
    };
    let long = Wish {
        seconds: 600,
        value: 70_000,
        ..WISH
    };
    let early = Wish {
        value: 90_000,
        windows: &[(300, 900)],
        ..long
    };
    let short = Wish {
        value: 70_000,
        ..WISH
    };
    let wishes = [early, longest, long, short, short, short];
    let groups = [group_of(Op::Many, &wishes)];
    let snapshot = snapshot_of(rt.alloc(), &[DISH], &groups, &[])?;
    let expected = [
        (1, 0, 1),
        (2, 0, 4),
        (3, 0, 7),
        (4, 0, 0),
        (5, 0, 3),
        (6, 0, 9),
    ];
    assert_greedy(&rt, rt.alloc(), &snapshot, &expected)
}
