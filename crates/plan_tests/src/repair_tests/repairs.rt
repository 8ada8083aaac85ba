// Plans that are repaired from starts, and what they are worth.

ghost use Rattle.std.specs.Prelude.{◌≡◌, true, All};
ghost use Rattle.plan_base.specs.Starts.{IsPossibleStart};
ghost use Rattle.plan_base.specs.Feasible.{IsDisjoint};
ghost use Rattle.groups.specs.Places.{ArePlaces};

use super::{BOTH, DISH, WISH, counted, group_of, listed, snapshot_of};
use groups::{Places, Slots};
use plan_base::{Op, Placement, RequestNo, SliceNo, Snapshot, TelescopeNo};
use repair::Repairer;
use samples::Wish;
use snapshot_starts::{is_possible, starts};
use std::alloc::{AllocError, Global};
use std::process::Abort;
use std::test::Fail;
use std::thread::Threads;

/// A start or a placement: request, telescope and slice.
type Start = (u32, u16, u32);

/// What a run makes of these starts.
#[derive(Clone, Copy)]
struct Row<'a> {
    chosen: &'a [Start],
    value: u64,
    plan: &'a [Start],
}

fn placements(alloc: Global, starts: &[Start]) -> Result<Vec<Placement>, AllocError> {
    let mut placements = Vec::new(alloc);
    for (request, telescope, slice) in starts {
        placements.push(Placement {
            request: RequestNo(*request),
            telescope: TelescopeNo(*telescope),
            slice: SliceNo(*slice),
        })?;
    }
    Ok(placements)
}

fn are_possible(snapshot: &Snapshot, starts: &[Placement]) -> bool
    ensures { result ≡ true → All (IsPossibleStart snapshot.now) starts.now }
{
    for start in starts {
        if !is_possible(snapshot, *start) {
            return false;
        }
    }
    true
}

/// Whether each start ends before the next begins, telescope after telescope.
fn are_apart(snapshot: &Snapshot, places: &Places, starts: &[Placement]) -> bool
    requires places { ArePlaces snapshot.now places.now }
    requires possible { All (IsPossibleStart snapshot.now) starts.now }
    ensures { result ≡ true → IsDisjoint snapshot.now starts.now }
{
    for index in 1..starts.len() {
        let before = Slots::of(snapshot, places, starts[index - 1]);
        let after = Slots::of(snapshot, places, starts[index]);
        if after.from < before.to {
            return false;
        }
    }
    true
}

fn assert_run(
    rt: &impl Abort,
    alloc: Global,
    snapshot: &Snapshot,
    repairer: &mut Repairer<'_>,
    row: &Row,
) -> Result<(), Fail>
    requires { repairer.old.snapshot ≡ snapshot.now }
    ensures { repairer.new.snapshot ≡ repairer.old.snapshot }
{
    let chosen = placements(alloc, row.chosen)?;
    let chosen = chosen.as_slice();
    if !are_possible(snapshot, chosen) {
        return Err(Fail::new("a start isn't possible"));
    }
    let places = Box::new(alloc, Places::new(alloc, snapshot)?)?;
    if !are_apart(snapshot, &places, chosen) {
        return Err(Fail::new("two starts share a slice"));
    }
    let value = repairer.run(chosen);
    let plan = listed(alloc, repairer.plan())?;
    assert_eq!(rt; value, row.value);
    assert_eq!(rt; plan.as_slice(), row.plan);
    Ok(())
}

/// Asserts the rows, one after another.
fn assert_runs(
    rt: &impl Abort,
    alloc: Global,
    snapshot: &Snapshot,
    repairer: &mut Repairer<'_>,
    rows: &[Row],
) -> Result<(), Fail>
    requires { repairer.old.snapshot ≡ snapshot.now }
{
    for row in rows {
        assert_run(rt, alloc, snapshot, repairer, row)?;
    }
    Ok(())
}

/// Asserts the rows with one repairer.
fn assert_rows<R: Threads + Sync + Abort>(
    rt: &R,
    alloc: Global,
    snapshot: &Snapshot,
    rows: &[Row],
) -> Result<(), Fail> {
    let starts = starts(rt, alloc, snapshot)?;
    let mut repairer = Repairer::new(alloc, snapshot, &starts)?;
    let asserted = assert_runs(rt, alloc, snapshot, &mut repairer, rows);
    // Calls drop these. Else they would be dropped here, piece by piece, which the proof would have to follow.
    drop(repairer);
    drop(starts);
    asserted
}

#[test]
fn first_start_of_a_request_is_added_and_the_other_is_filled_in(
    rt: HostRuntime,
) -> Result<(), Fail> {
    let single = [WISH];
    let groups = [group_of(Op::Single, &single); 2];
    let snapshot = snapshot_of(rt.alloc(), &[DISH], &groups, &[])?;
    let chosen = [
        (1, 0, 0),
        (1, 0, 1),
        (1, 0, 2),
        (1, 0, 3),
        (1, 0, 4),
        (1, 0, 5),
        (1, 0, 6),
        (1, 0, 7),
        (1, 0, 8),
        (1, 0, 9),
        (1, 0, 10),
        (1, 0, 11),
    ];
    let row = Row {
        chosen: &chosen,
        value: 100_000,
        plan: &[(1, 0, 0), (2, 0, 1)],
    };
    assert_rows(&rt, rt.alloc(), &snapshot, &[row])
}

#[test]
fn delay_takes_from_the_value(rt: HostRuntime) -> Result<(), Fail> {
    let fading = [Wish { fade: 100, ..WISH }];
    let long = [Wish {
        seconds: 900,
        value: 10,
        windows: &[(0, 900)],
        ..WISH
    }];
    let groups = [group_of(Op::Single, &fading), group_of(Op::Single, &long)];
    let snapshot = snapshot_of(rt.alloc(), &[DISH], &groups, &[])?;
    let row = Row {
        chosen: &[(2, 0, 0)],
        value: 35_010,
        plan: &[(2, 0, 0), (1, 0, 3)],
    };
    assert_rows(&rt, rt.alloc(), &snapshot, &[row])
}

#[test]
fn start_of_greater_worth_goes_first(rt: HostRuntime) -> Result<(), Fail> {
    let fading = [Wish {
        value: 60_000,
        fade: 100,
        telescopes: BOTH,
        ..WISH
    }];
    let steady = [Wish {
        telescopes: BOTH,
        ..WISH
    }];
    let groups = [counted(&fading), counted(&steady)];
    let snapshot = snapshot_of(rt.alloc(), &[DISH, DISH], &groups, &[300])?;
    let row = Row {
        chosen: &[(1, 0, 5), (2, 1, 0)],
        value: 50_000,
        plan: &[(2, 1, 0)],
    };
    assert_rows(&rt, rt.alloc(), &snapshot, &[row])
}

#[test]
fn and_is_added_whole_or_left_to_fill(rt: HostRuntime) -> Result<(), Fail> {
    let greater = Wish {
        value: 60_000,
        ..WISH
    };
    let members = [WISH, greater];
    let single = [Wish { value: 10, ..WISH }];
    let groups = [group_of(Op::And, &members), group_of(Op::Single, &single)];
    let snapshot = snapshot_of(rt.alloc(), &[DISH], &groups, &[])?;
    let whole = Row {
        chosen: &[(1, 0, 4), (2, 0, 6), (1, 0, 8)],
        value: 110_010,
        plan: &[(1, 0, 4), (2, 0, 6), (3, 0, 0)],
    };
    let left = Row {
        chosen: &[(2, 0, 3)],
        value: 110_010,
        plan: &[(1, 0, 0), (2, 0, 1), (3, 0, 2)],
    };
    assert_rows(&rt, rt.alloc(), &snapshot, &[whole, left])
}
