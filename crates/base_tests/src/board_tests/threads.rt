// Workers that share a board: each is an element of a slice, with a seat of its own.

ghost use Rattle.std.specs.Prelude.{◌≡◌, ◌+◌, ◌<◌, length, vec_len, All, IfOk};
ghost use Rattle.board.specs.Views.{all_seats, IsOnlySeat};
ghost use Rattle.board.specs.Seats.{view, IsSeatOf};

use board::{Board, BoardSeat, Totals};
use std::alloc::{AllocError, Global};
use std::test::Fail;
use std::thread;
use std::thread::Threads;

const NUMBERS: u64 = 100_000;

/// A bound that looks random.
fn bound_of(number: u64) -> u64 {
    number.wrapping_mul(0x9e37_79b9_7f4a_7c15) >> 20
}

/// A value that looks random.
fn value_of(number: u64) -> u64 {
    number.wrapping_mul(0xff51_afd7_ed55_8ccd) >> 20
}

#[derive(Drop)]
struct Worker {
    seat: BoardSeat,
    claims: u64,
    /// How often it claimed each number.
    counts: Vec<u8>,
    ghost counted: { length (view seat).claims ≡ claims },
    ghost one: { (view seat).seats ≡ 1 },
    ghost no_tickets: { (view seat).tickets ≡ 0 },
}

impl Worker {
    /// Claims a number and gives its bound and its value, if it is one of the numbers.
    fn step(&mut self, board: &Board) -> bool
        requires seat { IsSeatOf board.now self.old.seat }
        requires room { self.old.claims < 1048576 }
        ensures { IsSeatOf board.now self.new.seat }
    {
        let number = board.claim(&mut self.seat);
        self.claims += 1;
        let Some(count) = self.counts.get_mut(number as usize) else {
            return false;
        };
        *count = count.saturating_add(1);
        board.lower(&mut self.seat, bound_of(number));
        board.raise(&mut self.seat, value_of(number));
        true
    }

    /// Works until no number is left.
    fn work(&mut self, board: &Board)
        requires { IsSeatOf board.now self.old.seat }
        ensures { IsSeatOf board.now self.new.seat }
    {
        for _ in 0..=NUMBERS {
            if self.claims >= 1_048_576 || !self.step(board) {
                return;
            }
        }
    }
}

fn zeros(alloc: Global) -> Result<Vec<u8>, AllocError> {
    vec![in alloc; 0u8; NUMBERS as usize]
}

fn worker_of(alloc: Global, board: &Board, seat: &mut BoardSeat) -> Result<Worker, AllocError>
    requires seat { IsSeatOf board.now seat.old }
    requires ticket { 0 < (view seat.old).tickets }
    ensures seat { IsSeatOf board.now seat.new }
    ensures seats { IfOk result (λ _. (view seat.new).seats ≡ (view seat.old).seats) }
    ensures tickets { IfOk result (λ _. (view seat.new).tickets + 1 ≡ (view seat.old).tickets) }
    ensures worker { IfOk result (λ worker. IsSeatOf board.now worker.seat) }
{
    let counts = zeros(alloc)?;
    Ok(Worker {
        seat: board.split(seat),
        claims: 0,
        counts,
    })
}

/// So many workers, for a board's first seat.
fn workers_of(
    alloc: Global,
    board: &Board,
    seat: &mut BoardSeat,
    count: usize,
) -> Result<Vec<Worker>, AllocError>
    requires seat { IsSeatOf board.now seat.old }
    requires seats { (view seat.old).seats ≡ 1 }
    requires tickets { (view seat.old).tickets ≡ 65536 }
    requires few { count < 100 }
    ensures seat { IsSeatOf board.now seat.new }
    ensures parts { IfOk result (λ workers. (view seat.new).seats + (view seat.new).tickets + vec_len workers ≡ all_seats) }
    ensures workers { IfOk result (λ workers. All (λ worker. IsSeatOf board.now worker.seat) workers.items) }
{
    let mut workers = Vec::new(alloc);
    for _ in 0..count {
        workers.push(worker_of(alloc, board, seat)?)?;
    }
    Ok(workers)
}

fn add_all(sums: &mut [u8], counts: &[u8]) {
    for (sum, count) in sums.iter_mut().zip(counts) {
        *sum = sum.saturating_add(*count);
    }
}

/// Joins all seats into one, and adds up how often each number was claimed.
fn join_all(board: &Board, seat: &mut BoardSeat, mut workers: Vec<Worker>, sums: &mut [u8])
    requires seat { IsSeatOf board.now seat.old }
    requires parts { (view seat.old).seats + (view seat.old).tickets + vec_len workers ≡ all_seats }
    requires workers { All (λ worker. IsSeatOf board.now worker.seat) workers.items }
    ensures seat { IsSeatOf board.now seat.new }
    ensures only { IsOnlySeat (view seat.new) }
{
    while let Some(worker) = workers.pop() {
        let Worker {
            seat: other,
            claims: _,
            counts,
        } = worker;
        board.join(seat, other);
        add_all(sums, &counts);
    }
}

fn work_all<R: Threads + Sync>(rt: &R, board: &Board, workers: &mut [Worker], threads: usize)
    requires threads { 0 < threads }
    requires workers { All (λ worker. IsSeatOf board.now worker.seat) workers.old }
    ensures { All (λ worker. IsSeatOf board.now worker.seat) workers.new }
{
    thread::for_each_mut(
        rt,
        workers,
        threads,
        &|_, worker: &mut Worker|
            requires { IsSeatOf board.now worker.old.seat }
            ensures { IsSeatOf board.entry.now worker.new.seat }
        { worker.work(board) },
    );
}

/// Has so many workers claim the numbers, on as many threads. Answers what the board came to, and how often each number
/// was claimed.
fn share<R: Threads + Sync>(
    rt: &R,
    alloc: Global,
    count: usize,
) -> Result<(Totals, Vec<u8>), AllocError>
    requires some { 0 < count }
    requires few { count < 100 }
{
    let (board, mut seat) = Board::new(alloc, 10)?;
    let mut workers = workers_of(alloc, &board, &mut seat, count)?;
    work_all(rt, &board, workers.as_mut_slice(), count);
    let mut sums = zeros(alloc)?;
    join_all(&board, &mut seat, workers, sums.as_mut_slice());
    Ok((board.close(seat), sums))
}

/// What the numbers come to in plain variables. Each worker also claims one number above them.
fn plain_totals(workers: u64) -> Totals {
    let mut bound = u64::MAX;
    let mut value = 10;
    for number in 0..NUMBERS {
        bound = bound.min(bound_of(number));
        value = value.max(value_of(number));
    }
    Totals {
        bound,
        value,
        claimed: NUMBERS.saturating_add(workers),
    }
}

#[test]
fn two_threads_claim_each_number_once(rt: HostRuntime) -> Result<(), Fail> {
    let (totals, sums) = share(&rt, rt.alloc(), 2)?;
    assert_eq!(rt; totals, plain_totals(2));
    assert!(rt; sums.iter().all(|sum| *sum == 1));
    Ok(())
}

#[test]
fn four_threads_claim_each_number_once(rt: HostRuntime) -> Result<(), Fail> {
    let (totals, sums) = share(&rt, rt.alloc(), 4)?;
    assert_eq!(rt; totals, plain_totals(4));
    assert!(rt; sums.iter().all(|sum| *sum == 1));
    Ok(())
}
