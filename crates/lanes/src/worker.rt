// A worker, which takes lanes and makes their rounds.

ghost use Rattle.std.specs.Prelude.{◌≡◌, ◌+◌, ◌<◌, ◌≤◌, ℕ, false, length, min, HoldsAt, IsTrue};
ghost use Rattle.board.specs.Seats.{view, IsSeatOf};
ghost use Rattle.lanes.specs.Searched.{IsMetFor};
ghost use Rattle.lanes.specs.Working.{IsLook};

use crate::found::Found;
use crate::steps::Steps;
use crate::task::{Task, Way};
use board::{Board, BoardSeat};
use plan_base::Settings;
use plan_io::Point;

/// What a lane in step has found, and whether it makes no further round.
#[derive(Drop)]
pub(crate) struct LaneFound {
    pub(crate) found: Found,
    pub(crate) stopped: bool,
}

/// A worker with a seat of its own, and what it has found.
#[derive(Drop)]
pub(crate) struct Worker<'a, const L: usize> {
    pub(crate) number: u32,
    pub(crate) settings: Settings,
    /// The value that plans have to pass.
    pub(crate) opening: u64,
    pub(crate) seat: BoardSeat,
    pub(crate) steps: Steps<'a, L>,
    /// What each of the lanes in step has found.
    pub(crate) lanes: Vec<LaneFound>,
    /// What all lanes before these have found.
    pub(crate) found: Found,
    /// How many lanes are taken at once: what each worker has if all have as many, rounded up, and at most `L`.
    pub(crate) share: usize,
    /// How many lanes are in step, the first of the `L`.
    pub(crate) taken: usize,
}

impl<'a, const L: usize, W: Way> Task<W> for Worker<'a, L> {
    ghost use Rattle.lanes.specs.Working.{IsReadyToWork, HasDoneWork};

    ghost can_run = { IsReadyToWork L };

    ghost run_gives = { HasDoneWork L };

    fn run(&mut self, board: &Board, way: &W) {
        self.work(board, way);
    }
}

impl<'a, const L: usize> Worker<'a, L> {
    ghost use Rattle.lanes.specs.Rounds.{IsSolvedAt};
    ghost use Rattle.lanes.specs.Working.{
      IsWorking,
      IsSameWorker,
      AreFresh,
      HasMade,
      IsNoneLeft,
      IsNextMade,
      IsStopped,
      IsDone,
      HasMetAt,
    };

    /// Takes lanes until none is left, and makes their rounds, until bound and value of the board have met.
    fn work<W: Way>(&mut self, board: &Board, way: &W)
        requires seat { IsSeatOf board.now self.old.seat }
        requires working { IsWorking L self.old }
        requires none { self.old.taken ≡ 0 }
        requires few { length (view self.old.seat).claims ≤ self.old.settings.lanes + 1 }
        ensures seat { IsSeatOf board.now self.new.seat }
        ensures same { IsSameWorker L self.old self.new }
        ensures done { IsDone L self.new }
    {
        while self.next_lanes(board) {
            self.make_rounds(board, way);
            self.keep();
        }
    }

    /// Takes the next lanes. False where none is left, or where no further round can change the board.
    fn next_lanes(&mut self, board: &Board) -> bool
        requires seat { IsSeatOf board.now self.old.seat }
        requires working { IsWorking L self.old }
        requires none { self.old.taken ≡ 0 }
        requires few { length (view self.old.seat).claims ≤ self.old.settings.lanes + 1 }
        ensures seat { IsSeatOf board.now self.new.seat }
        ensures same { IsSameWorker L self.old self.new }
        ensures working { IsWorking L self.new }
        ensures fresh { AreFresh L self.new }
        ensures more { length (view self.old.seat).claims < length (view self.new.seat).claims }
        ensures few { IsTrue result → length (view self.new.seat).claims ≤ self.old.settings.lanes + 1 }
        ensures done { result ≡ false → IsDone L self.new }
    {
        self.take_lanes(board);
        self.taken > 0 && !have_met(board, &mut self.seat)
    }

    /// Claims lanes, as many as are this worker's share, as far as there are any.
    fn take_lanes(&mut self, board: &Board)
        requires seat { IsSeatOf board.now self.old.seat }
        requires working { IsWorking L self.old }
        requires none { self.old.taken ≡ 0 }
        requires few { length (view self.old.seat).claims ≤ self.old.settings.lanes + 1 }
        ensures seat { IsSeatOf board.now self.new.seat }
        ensures same { IsSameWorker L self.old self.new }
        ensures working { IsWorking L self.new }
        ensures fresh { AreFresh L self.new }
        ensures more { length (view self.old.seat).claims < length (view self.new.seat).claims }
        ensures few { 0 < self.new.taken → length (view self.new.seat).claims ≤ self.old.settings.lanes + 1 }
        ensures none_left { self.new.taken ≡ 0 → IsNoneLeft self.new.settings (view self.new.seat) }
    {
        for _ in 0..self.share {
            if !self.take_lane(board) {
                return;
            }
        }
    }

    /// Claims a lane and begins it. False where none is left.
    fn take_lane(&mut self, board: &Board) -> bool
        requires seat { IsSeatOf board.now self.old.seat }
        requires working { IsWorking L self.old }
        requires fresh { AreFresh L self.old }
        requires room { self.old.taken < self.old.share }
        requires few { length (view self.old.seat).claims + min 1 self.old.taken ≤ self.old.settings.lanes + 1 }
        ensures seat { IsSeatOf board.now self.new.seat }
        ensures same { IsSameWorker L self.old self.new }
        ensures working { IsWorking L self.new }
        ensures fresh { AreFresh L self.new }
        ensures more { length (view self.new.seat).claims ≡ length (view self.old.seat).claims + 1 }
        ensures taken { IsTrue result → self.new.taken ≡ self.old.taken + 1 }
        ensures few { IsTrue result → length (view self.new.seat).claims ≤ self.old.settings.lanes }
        ensures none { result ≡ false → self.new.taken ≡ self.old.taken }
        ensures none_left { result ≡ false → IsNoneLeft self.new.settings (view self.new.seat) }
    {
        let number = board.claim(&mut self.seat);
        if number >= u64::from(self.settings.lanes) {
            return false;
        }
        self.steps.begin(self.taken, number as u32);
        let lane = &mut self.lanes[self.taken];
        lane.found.clear();
        lane.stopped = false;
        self.taken += 1;
        true
    }

    /// Makes the rounds of the lanes in step, which were just taken.
    fn make_rounds<W: Way>(&mut self, board: &Board, way: &W)
        requires seat { IsSeatOf board.now self.old.seat }
        requires working { IsWorking L self.old }
        requires fresh { AreFresh L self.old }
        ensures seat { IsSeatOf board.now self.new.seat }
        ensures same { IsSameWorker L self.old self.new }
        ensures working { IsWorking L self.new }
        ensures made { HasMade L self.new self.old.settings.rounds }
        ensures claims { (view self.new.seat).claims ≡ (view self.old.seat).claims }
    {
        for round in 0..self.settings.rounds {
            if self.make_round(board, round, way) {
                return;
            }
        }
    }

    /// Makes a round of each lane that hasn't stopped. True where all have.
    fn make_round<W: Way>(&mut self, board: &Board, round: u32, way: &W) -> bool
        requires seat { IsSeatOf board.now self.old.seat }
        requires working { IsWorking L self.old }
        requires round { round < self.old.settings.rounds }
        requires made { HasMade L self.old round }
        ensures seat { IsSeatOf board.now self.new.seat }
        ensures same { IsSameWorker L self.old self.new }
        ensures working { IsWorking L self.new }
        ensures made { HasMade L self.new (round + 1) }
        ensures stopped { IsTrue result → (k : ℕ) → HasMade L self.new k }
        ensures claims { (view self.new.seat).claims ≡ (view self.old.seat).claims }
    {
        self.steps.solve();
        for place in 0..self.taken {
            if !self.lanes[place].stopped {
                self.make_round_of(board, place, round, way);
            }
        }
        self.have_all_stopped()
    }

    /// Whether no lane in step makes a further round.
    fn have_all_stopped(&self) -> bool
        requires { IsWorking L self.now }
        ensures { IsTrue result → (k : ℕ) → HasMade L self.now k }
    {
        self.lanes.as_slice()[..self.taken]
            .iter()
            .all(|lane| lane.stopped)
    }

    /// Makes a lane's round, and sees whether further ones are of use.
    fn make_round_of<W: Way>(&mut self, board: &Board, place: usize, round: u32, way: &W)
        requires seat { IsSeatOf board.now self.old.seat }
        requires working { IsWorking L self.old }
        requires place { place < self.old.taken }
        requires solved { IsSolvedAt self.old.steps place }
        requires made { HoldsAt (λ lane. lane.made < self.old.settings.rounds) self.old.steps.lanes place }
        ensures seat { IsSeatOf board.now self.new.seat }
        ensures working { IsWorking L self.new }
        ensures next { IsNextMade L place self.old self.new }
    {
        let point = Point::AfterRound {
            worker: self.number,
            lane: self.steps.lane(place).lane,
            round,
        };
        self.find(board, place);
        way.reach(point);
        if have_met(board, &mut self.seat) {
            self.stop_lanes();
        }
    }

    /// Finds what a lane's round gives, and tells the board of it.
    fn find(&mut self, board: &Board, place: usize)
        requires seat { IsSeatOf board.now self.old.seat }
        requires working { IsWorking L self.old }
        requires place { place < self.old.taken }
        requires solved { IsSolvedAt self.old.steps place }
        requires made { HoldsAt (λ lane. lane.made < self.old.settings.rounds) self.old.steps.lanes place }
        ensures seat { IsSeatOf board.now self.new.seat }
        ensures working { IsWorking L self.new }
        ensures next { IsNextMade L place self.old self.new }
    {
        let answer = self.steps.answer(place);
        let prices = self.steps.lane(place);
        let found = &mut self.lanes[place].found;
        found.lower(answer.bound, &prices.prices, &prices.quota_prices);
        found.raise(answer.value, self.steps.plan());
        self.steps.advance(place);
        board.lower(&mut self.seat, answer.bound);
        board.raise(&mut self.seat, answer.value);
    }

    /// Stops the lanes whose further rounds can't be the first to give the bound or the value that have met. With several
    /// workers any round that gives them will do.
    fn stop_lanes(&mut self)
        requires working { IsWorking L self.old }
        requires met { IsMetFor (view self.old.seat) }
        ensures working { IsWorking L self.new }
        ensures stopped { IsStopped L self.old self.new }
    {
        for place in 0..self.taken {
            self.stop_lane(place);
        }
    }

    /// Stops a lane in step, if no further round of it is of use.
    fn stop_lane(&mut self, place: usize)
        requires working { IsWorking L self.old }
        requires met { IsMetFor (view self.old.seat) }
        requires place { place < self.old.taken }
        ensures working { IsWorking L self.new }
        ensures stopped { IsStopped L self.old self.new }
    {
        if self.may_stop(place) {
            self.lanes[place].stopped = true;
        }
    }

    /// Whether no further round of a lane in step is of use, where bound and value of the board have met.
    fn may_stop(&self, place: usize) -> bool
        requires working { IsWorking L self.now }
        requires place { place < self.now.taken }
        ensures { IsTrue result → self.now.settings.workers ≡ 1 → HasMetAt self.now.found self.now.lanes.items place }
    {
        self.settings.workers > 1 || self.has_met(place)
    }

    /// Whether the bound that lanes up to one in step have found is their value.
    fn has_met(&self, place: usize) -> bool
        requires working { IsWorking L self.now }
        requires place { place < self.now.taken }
        ensures { IsTrue result → HasMetAt self.now.found self.now.lanes.items place }
    {
        let mut bound = self.found.bound();
        let mut value = self.found.value();
        for lane in &self.lanes.as_slice()[..place + 1] {
            bound = bound.min(lane.found.bound());
            value = value.max(lane.found.value());
        }
        bound == value
    }

    /// Keeps what the lanes in step have found, in their order. None is then in step.
    fn keep(&mut self)
        requires working { IsWorking L self.old }
        requires made { HasMade L self.old self.old.settings.rounds }
        ensures working { IsWorking L self.new }
        ensures rest { self.new ≡ record self.old { found = self.new.found; taken = 0 } }
    {
        for place in 0..self.taken {
            self.found.take(&self.lanes[place].found);
        }
        self.taken = 0;
    }
}

/// Whether the board's bound is its value, so that no further round can change either.
fn have_met(board: &Board, seat: &mut BoardSeat) -> bool
    requires { IsSeatOf board.now seat.old }
    ensures seat { IsSeatOf board.now seat.new }
    ensures looked { IsLook (view seat.old) (view seat.new) }
    ensures met { IsTrue result → IsMetFor (view seat.new) }
{
    board.look_bound(seat) == board.look_value(seat)
}
