// The lines that no thread did.

ghost use Rattle.std.specs.Prelude.{◌≡◌, ◌<◌, ℕ, length, Some, IsSome, IfOk, OnOk, OnErr, MatchBool};
ghost use Rattle.lanes.specs.Solving.{IsInRange};
ghost use Rattle.desk_book.specs.Seen.{take_of, IsOver};
ghost use Rattle.desk_lock.specs.Finishing.{KeepsEntries, EndsLine, EndsScript, EndsAll};

use crate::desk::{Desk, Sending};
use desk_book::{Book, BookStep};
use lanes::solve_plan_with;
use plan_base::Taken;
use plan_io::NoGate;
use snapshot_starts::StartCache;
use std::alloc::{AllocError, Global};
use std::thread::Threads;

/// Seeks the plan of what a caller took, and publishes it. Want of memory leaves the book as before.
fn publish<R: Threads + Sync>(
    rt: &R,
    alloc: Global,
    book: &mut Book,
    taken: Taken,
    cache: &mut StartCache,
) -> Result<(), AllocError>
    requires kept { take_of book.old.takes taken.caller ≡ Some taken }
    requires range { IsInRange taken.settings }
    ensures ok { OnOk result (EndsLine book.old taken.caller book.new) }
    ensures err { OnErr result (book.new ≡ book.old) }
{
    let solved = solve_plan_with(rt, alloc, taken, cache, &NoGate)?;
    let _ = book.publish(solved)?;
    Ok(())
}

/// A copy of what a caller took, and didn't publish yet.
fn copy_kept(book: &Book, caller: u8) -> Result<Taken, AllocError>
    requires { IsSome (take_of book.now.takes caller) }
    ensures same { IfOk result (λ taken. take_of book.now.takes caller ≡ Some taken) }
    ensures caller { IfOk result (λ taken. taken.caller ≡ caller) }
    ensures range { IfOk result (λ taken. IsInRange taken.settings) }
{
    // The call tells what holds of every book, so that the Take is known to be the caller's, with settings in their ranges.
    let _ = book.callers();
    book.kept(caller).unwrap().copy()
}

/// Seeks the plan of what a caller took and didn't publish yet, and publishes it. Want of memory leaves the book as before.
pub(crate) fn publish_kept<R: Threads + Sync>(
    rt: &R,
    alloc: Global,
    book: &mut Book,
    caller: u8,
    cache: &mut StartCache,
) -> Result<(), AllocError>
    requires { IsSome (take_of book.old.takes caller) }
    ensures ok { OnOk result (EndsLine book.old caller book.new) }
    ensures err { OnErr result (book.new ≡ book.old) }
{
    let taken = copy_kept(book, caller)?;
    publish(rt, alloc, book, taken, cache)
}

/// Does the next line of a caller, or the rest of it, and says whether one was left.
fn do_line<R: Threads + Sync>(
    rt: &R,
    alloc: Global,
    book: &mut Book,
    caller: u8,
    cache: &mut StartCache,
) -> Result<bool, AllocError>
    requires { caller < length book.old.scripts }
    ensures { IfOk result (λ more. MatchBool more (EndsLine book.old caller book.new) (IsOver book.old caller × (book.new ≡ book.old))) }
{
    // The calls tell what holds of every book, and of every state, whose settings are in their ranges.
    let _ = book.callers();
    let _ = book.state().version();
    match book.perform(caller)? {
        BookStep::Replied => Ok(true),
        BookStep::Taken(taken) => {
            publish(rt, alloc, book, taken, cache)?;
            Ok(true)
        }
        BookStep::TakeOpen => {
            publish_kept(rt, alloc, book, caller, cache)?;
            Ok(true)
        }
        BookStep::Over => Ok(false),
    }
}

/// Does all lines of a caller that are left.
fn finish_caller<R: Threads + Sync>(
    rt: &R,
    alloc: Global,
    book: &mut Book,
    caller: u8,
    cache: &mut StartCache,
) -> Result<(), AllocError>
    requires { caller < length book.old.scripts }
    ensures { OnOk result (EndsScript book.old caller book.new) }
{
    while do_line(rt, alloc, book, caller, cache)? {
        // The call tells what holds of every book, so that no more lines are done than there are.
        let _ = book.callers();
    }
    Ok(())
}

/// Does all lines that are left, the lower callers' first.
fn finish_all<R: Threads + Sync>(
    rt: &R,
    alloc: Global,
    book: &mut Book,
    cache: &mut StartCache,
) -> Result<(), AllocError>
    ensures { OnOk result (EndsAll book.old book.new) }
{
    for caller in 0..book.callers() {
        finish_caller(rt, alloc, book, caller, cache)?;
    }
    // The call tells what holds of every book, so that nobody but its callers has lines.
    let _ = book.callers();
    Ok(())
}

/// Does the lines of a book that are not done yet, the lower callers' first. One cache keeps possible starts from plan to plan.
/// Fails only for want of memory.
pub fn finish_book<R: Threads + Sync>(
    rt: &R,
    alloc: Global,
    mut book: Book,
) -> Result<Book, AllocError>
    ensures scripts { IfOk result (λ done. done.scripts ≡ book.scripts) }
    ensures entries { IfOk result (λ done. KeepsEntries book done) }
    ensures over { IfOk result (λ done. (caller : ℕ) → IsOver done caller) }
{
    let mut cache = StartCache::new();
    finish_all(rt, alloc, &mut book, &mut cache)?;
    Ok(book)
}

/// Does the lines that no thread did, and gives the book. Fails only for want of memory.
pub fn finish<S: Sending, R: Threads + Sync>(
    rt: &R,
    alloc: Global,
    desk: Desk<S>,
) -> Result<Book, AllocError>
    ensures scripts { IfOk result (λ book. book.scripts ≡ S.scripts) }
    ensures over { IfOk result (λ book. (caller : ℕ) → IsOver book caller) }
{
    finish_book(rt, alloc, desk.into_book())
}
