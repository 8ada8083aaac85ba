// Tasks that are run at once, each in a thread of its own where one can be made. They are generic, since the prover takes
// no closure over a worker, which borrows the snapshot.

ghost use Rattle.std.specs.Prelude.{◌≡◌, ℕ, ◌<◌, length, slice_index_or, All};
ghost use Rattle.board.specs.declared.board.Board.{Board};

use board::Board;
use plan_io::{Gate, Point};
use std::thread::{self, Threads};

/// What one thread passes on its way: a gate, of which a task needn't know that threads share it.
pub(crate) trait Way {
    /// Called at each point.
    fn reach(&self, point: Point);
}

impl<G: Gate> Way for G {
    fn reach(&self, point: Point) {
        self.pass(point);
    }
}

/// What a thread does with a board that it shares with others.
pub(crate) trait Task<W: Way>: Send {
    ghost can_run: { Board → Self → Type 0 };

    ghost run_gives: { Board → Self → Self → Type 0 };

    /// Does the task, with the shared board and the way of its own thread.
    fn run(&mut self, board: &Board, way: &W)
        requires { can_run board.now self.old }
        ensures { run_gives board.now self.old self.new };
}

/// Runs each task in a thread of its own where one can be made; one alone is run in the caller's.
pub(crate) fn run_all<T: Task<W>, R: Threads + Sync, W: Way + Sync>(
    rt: &R,
    board: &Board,
    tasks: &mut [T],
    way: &W,
)
    requires { All (T.can_run board.now) tasks.old }
    ensures count { length tasks.new ≡ length tasks.old }
    ensures each { (i : ℕ) (d : T) → i < length tasks.old → T.run_gives board.now (slice_index_or tasks.old i d) (slice_index_or tasks.new i d) }
{
    let threads = tasks.len().max(1);
    thread::for_each_mut(
        rt,
        tasks,
        threads,
        &|_, task: &mut T|
            requires { T.can_run board.now task.old }
            ensures { T.run_gives board.entry.now task.old task.new }
        { task.run(board, way) },
    );
}
