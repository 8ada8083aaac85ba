// Possible starts that are kept from one snapshot to the next, worked out by hand.

use plan_base::{RequestNo, SliceNo, Snapshot, TelescopeNo};
use samples::{Desk, Groups, TelescopeWish, Wish};
use snapshot_starts::{Run, StartCache};
use std::alloc::Global;
use std::process::Abort;
use std::test::Fail;
use std::thread::Threads;

const NIGHT: [(u64, u64); 1] = [(0, 3600)];

/// A run of request 1 on telescope 0.
fn run(first: u32, count: u32) -> Run {
    Run {
        request: RequestNo(1),
        telescope: TelescopeNo(0),
        first: SliceNo(first),
        count,
    }
}

/// A request of value 1 on telescope 0 that doesn't fade.
fn wish_of(seconds: u32) -> Wish<'static> {
    Wish {
        seconds,
        value: 1,
        fade: 0,
        windows: &NIGHT,
        telescopes: &[TelescopeNo(0)],
    }
}

/// Requests, and a telescope in a horizon of twelve slices of 300 seconds from one on.
fn night_from<'a>(
    alloc: Global,
    first: u32,
    usable: &'a [(u64, u64)],
    wishes: &'a [Wish<'a>],
) -> Result<Box<Snapshot>, Fail> {
    let desk = Desk {
        len: 300,
        first,
        slices: 12,
        telescopes: &[TelescopeWish { usable }],
        groups: Groups::Singles(wishes),
        quotas: &[],
    };
    Ok(desk.snapshot(alloc)?)
}

/// Asserts that a cache that is mended with the snapshot has these runs.
fn check_mended<R: Threads + Sync + Abort>(
    rt: &R,
    alloc: Global,
    cache: &mut StartCache,
    snapshot: &Snapshot,
    runs: &[Run],
) -> Result<(), Fail> {
    cache.mend(rt, alloc, snapshot)?;
    assert_eq!(rt; cache.starts().runs(), runs);
    Ok(())
}

#[test]
fn starts_go_with_the_clock_and_a_closure(rt: HostRuntime) -> Result<(), Fail> {
    let alloc = rt.alloc();
    let wishes = [wish_of(600)];
    let around = [(0, 900), (1800, 3600)];
    let mut cache = StartCache::new();
    let night = night_from(alloc, 0, &NIGHT, &wishes)?;
    check_mended(&rt, alloc, &mut cache, &night, &[run(0, 11)])?;
    let closed = night_from(alloc, 1, &around, &wishes)?;
    check_mended(&rt, alloc, &mut cache, &closed, &[run(1, 1), run(6, 5)])?;
    let reopened = night_from(alloc, 1, &NIGHT, &wishes)?;
    check_mended(&rt, alloc, &mut cache, &reopened, &[run(1, 10)])
}
