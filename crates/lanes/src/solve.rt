// The plan of a snapshot, sought by workers over all lanes.

ghost use Rattle.std.specs.Prelude.{◌≡◌, ◌≤◌, ◌<◌, ◌+◌, ℕ, length, slice_index_or, All, IfOk, MatchResult, vec_len};
ghost use Rattle.interval_solver.specs.Limits.{most_at_once};
ghost use Rattle.plan_base.specs.Planned.{IsPlanned};
ghost use Rattle.plan_base.specs.Solved.{IsOutcome};
ghost use Rattle.snapshot_starts.specs.Runs.{AreAllStarts};
ghost use Rattle.interval_solver.specs.Solving.{AreRowsOf};
ghost use Rattle.board.specs.Steps.{first_view};
ghost use Rattle.board.specs.Views.{all_seats};
ghost use Rattle.board.specs.Seats.{view, IsSeatOf};
ghost use Rattle.lanes.specs.Caching.{IsCachedFor, IsCachedOrNot};
ghost use Rattle.lanes.specs.Found.{ArePrices};
ghost use Rattle.lanes.specs.Working.{IsReadyToWork, HasDoneWork};
ghost use Rattle.lanes.specs.Solving.{IsInRange, IsUnused, IsNew, HasWorked, IsGathering};

use crate::found::Found;
use crate::steps::Steps;
use crate::task::run_all;
use crate::worker::{LaneFound, Worker};
use crate::worth::value_of;
use board::{Board, BoardSeat};
use interval_solver::Rows;
use plan_base::{Claim, Outcome, Settings, Snapshot, Solved, Taken};
use plan_io::Gate;
use repair::greedy;
use snapshot_starts::{StartCache, StartFault, Starts};
use std::alloc::{AllocError, Global};
use std::thread::Threads;

/// The planned claim of what was taken, or how many possible starts it has where they are more than 1,048,576. Bound and
/// value are the least and the greatest of all rounds of all lanes and the greedy plan, whatever workers there are; with
/// one worker the first rounds that give them, by lane and then round, give prices and plan. The settings have 1 to 8
/// lanes, 1 to 256 rounds and 1 to 8 workers. Fails only for want of memory. Whoever plans again and again finds the
/// starts sooner by [`solve_plan_with`].
pub fn solve_plan<R: Threads + Sync, G: Gate>(
    rt: &R,
    alloc: Global,
    taken: Taken,
    gate: &G,
) -> Result<Solved, AllocError>
    requires { IsInRange taken.settings }
    ensures same_taken { IfOk result (λ solved. solved.taken ≡ taken) }
    ensures outcome { IfOk result (λ solved. IsOutcome taken.snapshot taken.settings solved.outcome) }
{
    let mut cache = StartCache::new();
    solve_plan_with(rt, alloc, taken, &mut cache, gate)
}

/// As [`solve_plan`], with a cache that the caller keeps. Most possible starts are those of the snapshot before, which the
/// cache has: so the next plan with it finds its starts sooner. The cache changes no claim. It holds the snapshot of a plan
/// afterwards; where there are too many starts it is as before, and where memory is wanting it is either.
pub fn solve_plan_with<R: Threads + Sync, G: Gate>(
    rt: &R,
    alloc: Global,
    taken: Taken,
    cache: &mut StartCache,
    gate: &G,
) -> Result<Solved, AllocError>
    requires { IsInRange taken.settings }
    ensures same_taken { IfOk result (λ solved. solved.taken ≡ taken) }
    ensures outcome { IfOk result (λ solved. IsOutcome taken.snapshot taken.settings solved.outcome) }
    ensures cache { MatchResult result
        (λ solved. IsCachedFor taken.snapshot solved.outcome cache.old cache.new)
        (λ _. IsCachedOrNot taken.snapshot cache.old cache.new) }
{
    let outcome = outcome_of(rt, alloc, &taken, cache, gate)?;
    Ok(Solved::new(taken, outcome))
}

/// The planned claim, or the number of possible starts where they are too many.
fn outcome_of<R: Threads + Sync, G: Gate>(
    rt: &R,
    alloc: Global,
    taken: &Taken,
    cache: &mut StartCache,
    gate: &G,
) -> Result<Outcome, AllocError>
    requires { IsInRange taken.now.settings }
    ensures outcome { IfOk result (λ outcome. IsOutcome taken.now.snapshot taken.now.settings outcome) }
    ensures cache { MatchResult result
        (λ outcome. IsCachedFor taken.now.snapshot outcome cache.old cache.new)
        (λ _. IsCachedOrNot taken.now.snapshot cache.old cache.new) }
{
    match cache.mend(rt, alloc, &taken.snapshot) {
        Ok(()) => {
            let claim = plan(rt, alloc, taken, cache.starts(), gate)?;
            Ok(Outcome::Plan(claim))
        }
        Err(StartFault::TooManyStarts { count }) => Ok(Outcome::TooManyStarts(count)),
        Err(StartFault::NoMemory) => Err(AllocError),
    }
}

/// The claim of all rounds.
fn plan<R: Threads + Sync, G: Gate>(
    rt: &R,
    alloc: Global,
    taken: &Taken,
    starts: &Starts,
    gate: &G,
) -> Result<Claim, AllocError>
    requires settings { IsInRange taken.now.settings }
    requires starts { AreAllStarts taken.now.snapshot starts.now }
    ensures { IfOk result (λ claim. IsPlanned taken.now.snapshot taken.now.settings claim) }
{
    let rows = Rows::of_all(alloc, &taken.snapshot, starts)?;
    match share_of(taken.settings) {
        1 => plan_in_step::<1, R, G>(rt, alloc, taken, starts, rows.as_slice(), gate),
        2 => plan_in_step::<2, R, G>(rt, alloc, taken, starts, rows.as_slice(), gate),
        _ => plan_in_step::<4, R, G>(rt, alloc, taken, starts, rows.as_slice(), gate),
    }
}

/// How many lanes a worker has to do, if all do as many, rounded up.
fn share_of(settings: Settings) -> usize
    requires { IsInRange settings }
    ensures { 1 ≤ result }
{
    settings.lanes.div_ceil(settings.workers) as usize
}

/// The claim of all rounds, where a worker makes those of `L` lanes in step.
fn plan_in_step<const L: usize, R: Threads + Sync, G: Gate>(
    rt: &R,
    alloc: Global,
    taken: &Taken,
    starts: &Starts,
    rows: &[Rows<'_>],
    gate: &G,
) -> Result<Claim, AllocError>
    requires lanes { (1 ≤ L) × (L ≤ most_at_once) }
    requires settings { IsInRange taken.now.settings }
    requires starts { AreAllStarts taken.now.snapshot starts.now }
    requires rows { AreRowsOf taken.now.snapshot (length taken.now.snapshot.telescopes) rows.now }
    ensures { IfOk result (λ claim. IsPlanned taken.now.snapshot taken.now.settings claim) }
{
    taken.snapshot.recall_valid();
    let greedy = greedy(alloc, &taken.snapshot, starts)?;
    let value = value_of(&taken.snapshot, greedy.as_slice());
    let mut found = Found::new(alloc, &taken.snapshot, value)?;
    found.hold(greedy.as_slice());
    let (board, mut seat) = Board::new(alloc, value)?;
    let workers = workers_of::<L>(alloc, taken, starts, rows, &board, &mut seat, value)?;
    let workers = work_all(rt, &board, workers, gate);
    gather(taken, &board, &mut seat, &mut found, workers);
    // What workers saw, some of them gave: so none of them stopped too early.
    let _ = board.close(seat);
    Ok(found.into_claim())
}

/// Workers with seats of their own, for a board's first seat. Fails only for want of memory.
fn workers_of<'a, const L: usize>(
    alloc: Global,
    taken: &'a Taken,
    starts: &Starts,
    rows: &'a [Rows<'a>],
    board: &Board,
    seat: &mut BoardSeat,
    value: u64,
) -> Result<Vec<Worker<'a, L>>, AllocError>
    requires lanes { (1 ≤ L) × (L ≤ most_at_once) }
    requires settings { IsInRange taken.now.settings }
    requires starts { AreAllStarts taken.now.snapshot starts.now }
    requires rows { AreRowsOf taken.now.snapshot (length taken.now.snapshot.telescopes) rows.now }
    requires seat { IsSeatOf board.now seat.old }
    requires first { view seat.old ≡ first_view value }
    ensures seat { IfOk result (λ _. IsSeatOf board.now seat.new) }
    ensures unused { IfOk result (λ _. IsUnused value (view seat.new)) }
    ensures parts { IfOk result (λ workers. (view seat.new).seats + (view seat.new).tickets + vec_len workers ≡ all_seats) }
    ensures count { IfOk result (λ workers. vec_len workers ≡ taken.now.settings.workers) }
    ensures seats { IfOk result (λ workers. All (λ worker. IsSeatOf board.now worker.seat) workers.items) }
    ensures workers { IfOk result (λ workers. All (IsNew L taken.now.snapshot taken.now.settings value) workers.items) }
{
    let mut workers = Vec::with_capacity(alloc, taken.settings.workers as usize)?;
    for number in 0..taken.settings.workers {
        let own = board.split(seat);
        workers.push(worker_of(alloc, taken, starts, rows, own, value, number)?)?;
    }
    Ok(workers)
}

/// A worker that has yet to work. Fails only for want of memory.
fn worker_of<'a, const L: usize>(
    alloc: Global,
    taken: &'a Taken,
    starts: &Starts,
    rows: &'a [Rows<'a>],
    seat: BoardSeat,
    value: u64,
    number: u32,
) -> Result<Worker<'a, L>, AllocError>
    requires lanes { (1 ≤ L) × (L ≤ most_at_once) }
    requires settings { IsInRange taken.now.settings }
    requires starts { AreAllStarts taken.now.snapshot starts.now }
    requires rows { AreRowsOf taken.now.snapshot (length taken.now.snapshot.telescopes) rows.now }
    requires unused { IsUnused 0 (view seat) }
    requires parts { ((view seat).seats ≡ 1) × ((view seat).tickets ≡ 0) }
    ensures seat { IfOk result (λ worker. worker.seat ≡ seat) }
    ensures new { IfOk result (IsNew L taken.now.snapshot taken.now.settings value) }
{
    let snapshot = &taken.snapshot;
    snapshot.recall_valid();
    let lanes = founds_of(alloc, snapshot, L)?;
    let found = Found::new(alloc, snapshot, value)?;
    let steps = Steps::new(alloc, snapshot, starts, rows)?;
    Ok(Worker {
        number,
        settings: taken.settings,
        opening: value,
        seat,
        steps,
        lanes,
        found,
        share: share_of(taken.settings).min(L),
        taken: 0,
    })
}

/// Room for what so many lanes find. Fails only for want of memory.
fn founds_of(alloc: Global, snapshot: &Snapshot, count: usize) -> Result<Vec<LaneFound>, AllocError>
    ensures count { IfOk result (λ founds. length founds.items ≡ count) }
    ensures prices { IfOk result (λ founds. All (λ y. ArePrices snapshot.now y.found.prices y.found.quota_prices) founds.items) }
{
    let mut founds = Vec::with_capacity(alloc, count)?;
    for _ in 0..count {
        founds.push(LaneFound {
            found: Found::new(alloc, snapshot, 0)?,
            stopped: false,
        })?;
    }
    Ok(founds)
}

/// Has each worker work in a thread of its own where one can be made; one alone works in the caller's.
fn work_all<'a, const L: usize, R: Threads + Sync, G: Gate>(
    rt: &R,
    board: &Board,
    mut workers: Vec<Worker<'a, L>>,
    gate: &G,
) -> Vec<Worker<'a, L>>
    requires { All (IsReadyToWork L board.now) workers.items }
    ensures count { vec_len result ≡ vec_len workers.entry }
    ensures each { (i : ℕ) (d : _) → i < vec_len workers.entry
        → HasDoneWork L board.now (slice_index_or workers.entry.items i d) (slice_index_or result.items i d) }
{
    run_all(rt, board, workers.as_mut_slice(), gate);
    workers
}

/// Puts together what all workers have found, and joins their seats into one.
fn gather<const L: usize>(
    taken: &Taken,
    board: &Board,
    seat: &mut BoardSeat,
    found: &mut Found,
    mut workers: Vec<Worker<'_, L>>,
)
    requires seat { IsSeatOf board.now seat.old }
    requires gathering { IsGathering taken.now.snapshot taken.now.settings found.old.value found.old.plan (view seat.old) found.old (vec_len workers) }
    requires seats { All (λ worker. IsSeatOf board.now worker.seat) workers.items }
    requires worked { All (HasWorked L taken.now.snapshot taken.now.settings found.old.value) workers.items }
    ensures seat { IsSeatOf board.now seat.new }
    ensures gathered { IsGathering taken.now.snapshot taken.now.settings found.old.value found.old.plan (view seat.new) found.new 0 }
{
    taken.snapshot.recall_valid();
    while let Some(worker) = workers.pop() {
        // Calls drop these. Else they would be dropped here, piece by piece, which the proof would have to follow.
        drop(worker.steps);
        drop(worker.lanes);
        found.take(&worker.found);
        board.join(seat, worker.seat);
    }
}
