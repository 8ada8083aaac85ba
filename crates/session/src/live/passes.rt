//! Lines that are called, each caller's from a thread of its own and through a pass of its own.
ghost use Rattle.std.specs.Prelude.{◌≡◌, ◌<◌, ◌≤◌, ◌+◌, ℕ, length, None, IfOk, OnOk};
ghost use Rattle.plan_io.specs.Limits.{most_input_lines};
ghost use Rattle.desk_book.specs.Seen.{IsOver};
ghost use Rattle.desk_passes.specs.Seen.{lines_done};
ghost use Rattle.desk_passes.specs.Steps.{first_view};
ghost use Rattle.desk_passes.specs.Rule.{EachIsBack};
ghost use Rattle.desk_passes.specs.Calls.{IsRootOf, IsPassOf, root_view, view};
ghost use Rattle.session.specs.Passes.{IsFresh, IsOf, EachPass, OnlyOut};

use super::same::is_same;
use desk_book::Book;
use desk_passes::{CallAnswer, Pass, Root, SharedDesk};
use lanes::solve_plan_with;
use plan_base::MOST_CALLERS;
use plan_io::{Gate, MOST_LINES, Point, ScriptLine};
use snapshot_starts::StartCache;
use std::alloc::{AllocError, Global};
use std::sync::Wait;
use std::thread::{self, Threads};

/// Calls a line through a pass. For a plan the snapshot is taken in the pass's turn, and the plan is sought without it.
fn call_line<R: Threads + Wait + Sync, G: Gate>(
    rt: &R,
    alloc: Global,
    desk: &SharedDesk,
    pass: &mut Pass,
    line: &ScriptLine,
    number: u32,
    cache: &mut StartCache,
    gate: &G,
) -> Result<(), AllocError>
    requires desk { IsPassOf desk.now pass.old }
    requires shut { (view pass.old).take ≡ None }
    requires room { lines_done (view pass.old).own < most_input_lines }
    ensures desk { IsPassOf desk.now pass.new }
    ensures caller { (view pass.new).caller ≡ (view pass.old).caller }
    ensures shut { OnOk result ((view pass.new).take ≡ None) }
    ensures done { OnOk result (lines_done (view pass.new).own ≤ lines_done (view pass.old).own + 1) }
{
    let caller = pass.caller();
    let line = line.clone()?;
    match desk.call(rt, pass, line)? {
        CallAnswer::Replied(_) => Ok(()),
        CallAnswer::Taken(taken, _) => {
            gate.pass(Point::AfterTake {
                caller,
                line: number,
            });
            let solved = solve_plan_with(rt, alloc, taken, cache, gate)?;
            desk.publish(rt, pass, solved)?;
            Ok(())
        }
    }
}

/// Calls the lines of a pass's caller, one after another, as far as there is memory. One cache keeps possible starts from plan to
/// plan of the caller.
fn call_lines<R: Threads + Wait + Sync, G: Gate>(
    rt: &R,
    alloc: Global,
    desk: &SharedDesk,
    pass: &mut Pass,
    sent: &Book,
    gate: &G,
)
    requires { (caller : ℕ) × IsFresh desk.now caller pass.old }
    ensures desk { IsPassOf desk.now pass.new }
    ensures caller { (view pass.new).caller ≡ (view pass.old).caller }
{
    let caller = pass.caller();
    if caller >= sent.callers() {
        return;
    }
    let mut cache = StartCache::new();
    for index in 0..MOST_LINES {
        let Some(line) = sent.line(caller, index) else {
            return;
        };
        let number = index + 1;
        gate.pass(Point::BeforeLine {
            caller,
            line: number,
        });
        if call_line(rt, alloc, desk, pass, line, number, &mut cache, gate).is_err() {
            return;
        }
        gate.pass(Point::AfterLine {
            caller,
            line: number,
        });
    }
}

/// Calls the lines of all callers, each caller's in a thread of its own where one can be made.
fn call_scripts<R: Threads + Wait + Sync, G: Gate>(
    rt: &R,
    alloc: Global,
    desk: &SharedDesk,
    passes: &mut [Pass],
    sent: &Book,
    gate: &G,
)
    requires { EachPass (IsFresh desk.now) passes.old }
    ensures count { length passes.new ≡ length passes.old }
    ensures each { EachPass (IsOf desk.now) passes.new }
{
    thread::for_each_mut(
        rt,
        passes,
        usize::from(MOST_CALLERS),
        &|_, pass: &mut Pass|
            requires { (caller : ℕ) × IsFresh desk.now caller pass.old }
            ensures desk { IsPassOf desk.entry.now pass.new }
            ensures caller { (view pass.new).caller ≡ (view pass.old).caller }
        { call_lines(rt, alloc, desk, pass, sent, gate) },
    );
}

/// The passes of all callers.
fn make_passes(alloc: Global, desk: &SharedDesk, root: &mut Root) -> Result<Vec<Pass>, AllocError>
    requires root { IsRootOf desk.now root.old }
    requires first { root_view root.old ≡ first_view 8 }
    ensures root { IsRootOf desk.now root.new }
    ensures fresh { IfOk result (λ passes. EachPass (IsFresh desk.now) passes.items) }
    ensures out { IfOk result (λ passes. OnlyOut (root_view root.new) (length passes.items)) }
{
    let mut passes = Vec::new(alloc);
    for caller in 0..MOST_CALLERS {
        let pass = desk.pass(root, caller);
        passes.push(pass)?;
    }
    Ok(passes)
}

/// Gives all passes back.
fn give_back(desk: &SharedDesk, root: &mut Root, mut passes: Vec<Pass>)
    requires root { IsRootOf desk.now root.old }
    requires passes { EachPass (IsOf desk.now) passes.items }
    requires out { OnlyOut (root_view root.old) (length passes.items) }
    ensures root { IsRootOf desk.now root.new }
    ensures back { EachIsBack (root_view root.new) }
{
    while let Some(pass) = passes.pop() {
        desk.back(root, pass);
    }
}

/// Calls the lines of a book on a desk of its own, as far as there is memory, and gives the book that this comes to.
fn call_all<R: Threads + Wait + Sync, G: Gate>(
    rt: &R,
    alloc: Global,
    sent: &Book,
    gate: &G,
) -> Result<Book, AllocError> {
    let book = Book::new(alloc, MOST_CALLERS)?;
    let (desk, mut root) = SharedDesk::new(alloc, book)?;
    let mut passes = make_passes(alloc, &desk, &mut root)?;
    call_scripts(rt, alloc, &desk, passes.as_mut_slice(), sent, gate);
    give_back(&desk, &mut root, passes);
    Ok(desk.close(root))
}

/// Does all lines of a book, those of each caller through a pass and in a thread of its own. Where a thread left lines for want
/// of memory, all lines are done anew under a lock. Fails only for want of memory.
pub(crate) fn play<R: Threads + Wait + Sync, G: Gate>(
    rt: &R,
    alloc: Global,
    sent: Book,
    gate: &G,
) -> Result<Book, AllocError>
    ensures scripts { IfOk result (λ done. done.scripts ≡ sent.scripts) }
    ensures over { IfOk result (λ done. (caller : ℕ) → IsOver done caller) }
{
    let called = call_all(rt, alloc, &sent, gate)?;
    if !is_same(&called, &sent) {
        return desk_lock::play(rt, alloc, sent, gate);
    }
    // A plan may be left that was taken and not published, for want of memory.
    desk_lock::finish_book(rt, alloc, called)
}
