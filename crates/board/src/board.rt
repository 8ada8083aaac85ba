// The board and its calls. None waits, and none but `new` takes memory.

ghost use Rattle.std.specs.Prelude.{◌≡◌, ◌*◌, ◌≤◌, ◌<◌, length, IfOk};

use crate::rule::{BoardRule, Claim, JoinIn, LookAtBound, LookAtValue, Lower, Raise, SplitOff};
use crate::seat::{BoardSeat, SeatView};
use atomic_table::Table;
use std::alloc::{AllocError, Global};

// The places of the three words.
const BOUND: usize = 0;

const VALUE: usize = 1;

const COUNTER: usize = 2;

/// Three words that threads share: a bound that only falls, a value that only rises, and a counter. Threads use it by a
/// reference, each through a seat of its own. Each call but `new` and `close` is one atomic step.
#[derive(Drop)]
pub struct Board {
    table: Table<u8, SeatView, u64, BoardRule, Global>,
    ghost three_words: { table.shared.table_id.words ≡ 3 },
    ghost no_slots: { table.shared.table_id.slots ≡ 0 },
}

/// What a board came to.
#[derive(Clone, Copy, Debug, PartialEq, Eq)]
pub struct Totals {
    /// The least bound that was given; the greatest `u64` where none was.
    pub bound: u64,
    /// The greatest value that was given, the board's first value included.
    pub value: u64,
    /// How many numbers were claimed: all those below this one, each once.
    pub claimed: u64,
}

impl Board {
    ghost use Rattle.board.specs.Views.{most_claims, times, EachOnce, IsOnlySeat};
    ghost use Rattle.board.specs.Steps.{
      first_view,
      after_claim,
      after_lower,
      after_raise,
      after_look_at_bound,
      after_look_at_value,
      after_split,
      split_off,
      joined,
      IsBoundFor,
      IsValueFor,
      IsCounterFor,
    };
    ghost use Rattle.board.specs.Seats.{view, IsSeatOf};

    /// A board with no bound, this value and the counter at 0, and its first seat. Fails only for want of memory.
    pub fn new(alloc: Global, value: u64) -> Result<(Board, BoardSeat), AllocError>
        ensures seat { IfOk result (λ made. IsSeatOf made.0 made.1) }
        ensures first { IfOk result (λ made. view made.1 ≡ first_view value) }
    {
        let (table, inner) = Table::of_words(alloc, &[u64::MAX, value, 0], &value)?;
        Ok((Board { table }, BoardSeat { inner }))
    }

    /// Claims a number: the counter before, which is one higher now. A seat may claim 1,048,576 numbers, and as many more
    /// for each seat joined into it.
    pub fn claim(&self, seat: &mut BoardSeat) -> u64
        requires seat { IsSeatOf self.now seat.old }
        requires room { length (view seat.old).claims < most_claims * (view seat.old).seats }
        ensures seat { IsSeatOf self.now seat.new }
        ensures claimed { view seat.new ≡ after_claim (view seat.old) result }
        ensures before { IsCounterFor (view seat.old) result }
    {
        self.table
            .shared
            .fetch_add::<Claim>(&mut seat.inner, COUNTER, 1)
    }

    /// Gives a bound: the board's becomes the lower of the two. Answers the board's bound before.
    pub fn lower(&self, seat: &mut BoardSeat, bound: u64) -> u64
        requires { IsSeatOf self.now seat.old }
        ensures seat { IsSeatOf self.now seat.new }
        ensures given { view seat.new ≡ after_lower (view seat.old) bound result }
        ensures before { IsBoundFor (view seat.old) result }
    {
        self.table
            .shared
            .fetch_min::<Lower>(&mut seat.inner, BOUND, bound)
    }

    /// Gives a value: the board's becomes the higher of the two. Answers the board's value before.
    pub fn raise(&self, seat: &mut BoardSeat, value: u64) -> u64
        requires { IsSeatOf self.now seat.old }
        ensures seat { IsSeatOf self.now seat.new }
        ensures given { view seat.new ≡ after_raise (view seat.old) value result }
        ensures before { IsValueFor (view seat.old) result }
    {
        self.table
            .shared
            .fetch_max::<Raise>(&mut seat.inner, VALUE, value)
    }

    /// The board's bound.
    pub fn look_bound(&self, seat: &mut BoardSeat) -> u64
        requires { IsSeatOf self.now seat.old }
        ensures seat { IsSeatOf self.now seat.new }
        ensures seen { view seat.new ≡ after_look_at_bound (view seat.old) result }
        ensures bound { IsBoundFor (view seat.old) result }
    {
        self.table
            .shared
            .load::<LookAtBound>(&mut seat.inner, BOUND)
    }

    /// The board's value.
    pub fn look_value(&self, seat: &mut BoardSeat) -> u64
        requires { IsSeatOf self.now seat.old }
        ensures seat { IsSeatOf self.now seat.new }
        ensures seen { view seat.new ≡ after_look_at_value (view seat.old) result }
        ensures value { IsValueFor (view seat.old) result }
    {
        self.table
            .shared
            .load::<LookAtValue>(&mut seat.inner, VALUE)
    }

    /// Makes one seat more, for one of this seat's tickets. A board's first seat has 65,536, and a seat that was split off
    /// has none.
    pub fn split(&self, seat: &mut BoardSeat) -> BoardSeat
        requires seat { IsSeatOf self.now seat.old }
        requires ticket { 0 < (view seat.old).tickets }
        ensures seats { IsSeatOf self.now seat.new × IsSeatOf self.now result }
        ensures left { view seat.new ≡ after_split (view seat.old) }
        ensures made { view result ≡ split_off (view seat.old) }
    {
        let made = self.table.shared.split_seat::<SplitOff>(&mut seat.inner);
        BoardSeat { inner: made }
    }

    /// Joins another seat into this one, which then has given, seen and claimed what either had.
    pub fn join(&self, seat: &mut BoardSeat, other: BoardSeat)
        requires seat { IsSeatOf self.now seat.old }
        requires other { IsSeatOf self.now other }
        ensures seat { IsSeatOf self.now seat.new }
        ensures joined { view seat.new ≡ joined (view seat.old) (view other) }
    {
        let BoardSeat { inner: other } = other;
        self.table
            .shared
            .join_seat::<JoinIn>(&mut seat.inner, other);
    }

    /// What the board came to, for the seat into which all others were joined: the least bound and the greatest value
    /// that any seat gave, and how many numbers were claimed.
    pub fn close(self, seat: BoardSeat) -> Totals
        requires seat { IsSeatOf self seat }
        requires only { IsOnlySeat (view seat) }
        ensures bound { result.bound ≡ (view seat).least_given }
        ensures value { result.value ≡ (view seat).greatest_given }
        ensures seen { (result.bound ≤ (view seat).lowest_seen) × ((view seat).greatest_seen ≤ result.value) }
        ensures count { result.claimed ≡ length (view seat).claims }
        ensures claimed { EachOnce result.claimed (λ number. times number (view seat).claims) }
    {
        let Board { table } = self;
        let BoardSeat { inner } = seat;
        let closed = table.close_with(inner);
        let totals = Totals {
            bound: closed.word(BOUND),
            value: closed.word(VALUE),
            claimed: closed.word(COUNTER),
        };
        closed.free();
        totals
    }
}
