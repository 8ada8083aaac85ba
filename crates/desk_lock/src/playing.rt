// All lines of a book, each caller's by a thread of its own.

ghost use Rattle.std.specs.Prelude.{◌≡◌, ℕ, IfOk};
ghost use Rattle.desk_book.specs.Seen.{IsOver};

use crate::desk::{Desk, Sending};
use crate::finishing::finish;
use crate::working::work;
use desk_book::Book;
use plan_base::MOST_CALLERS;
use plan_io::Gate;
use std::alloc::{AllocError, Global};
use std::marker::Brand;
use std::sync::Wait;
use std::thread::{self, Threads};

/// The callers that a book may have.
const CALLERS: [u8; MOST_CALLERS as usize] = [0, 1, 2, 3, 4, 5, 6, 7];

/// Does the lines of each caller in a thread of its own, as far as there is memory.
fn work_all<S: Sending + Send + Sync, R: Threads + Wait + Sync, G: Gate>(
    rt: &R,
    alloc: Global,
    desk: &Desk<S>,
    gate: &G,
) {
    let mut callers = CALLERS;
    thread::for_each_mut(
        rt,
        &mut callers,
        CALLERS.len(),
        &|_, caller: &mut u8| {
            // What a thread leaves for want of memory is done, or told, by `finish`.
            let _ = work(rt, alloc, desk, *caller, gate);
        },
    );
}

/// Does all lines of a book with the scripts that `S` names.
fn play_as<S: Sending + Send + Sync, R: Threads + Wait + Sync, G: Gate>(
    rt: &R,
    alloc: Global,
    book: Book,
    gate: &G,
) -> Result<Book, AllocError>
    requires { book.scripts ≡ S.scripts }
    ensures scripts { IfOk result (λ done. done.scripts ≡ S.scripts) }
    ensures over { IfOk result (λ done. (caller : ℕ) → IsOver done caller) }
{
    let desk: Desk<S> = Desk::new(book);
    work_all(rt, alloc, &desk, gate);
    finish(rt, alloc, desk)
}

/// Does all lines of a book, those of each caller in a thread of its own where one can be made. Each order in which the threads
/// come to the book may be the history's. Waits for the threads. Of a book that has entries nothing says that they stay: it is
/// for a new one. Fails only for want of memory.
pub fn play<R: Threads + Wait + Sync, G: Gate>(
    rt: &R,
    alloc: Global,
    book: Book,
    gate: &G,
) -> Result<Book, AllocError>
    ensures scripts { IfOk result (λ done. done.scripts ≡ book.scripts) }
    ensures over { IfOk result (λ done. (caller : ℕ) → IsOver done caller) }
{
    play_as::<Brand, R, G>(rt, alloc, book, gate)
}
