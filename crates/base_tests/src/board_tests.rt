// A row of calls by one seat and two, and threads that share a board.

use board::*;
use std::test::Fail;

mod threads;

#[test]
fn words_are_told_as_they_were_before(rt: HostRuntime) -> Result<(), Fail> {
    let (board, mut seat) = Board::new(rt.alloc(), 10)?;
    assert_eq!(rt; board.lower(&mut seat, 90), 18_446_744_073_709_551_615);
    assert_eq!(rt; board.lower(&mut seat, 120), 90);
    assert_eq!(rt; board.raise(&mut seat, 40), 10);
    assert_eq!(rt; board.claim(&mut seat), 0);
    assert_eq!(rt; board.claim(&mut seat), 1);
    let other = board.split(&mut seat);
    board.join(&mut seat, other);
    let totals = board.close(seat);
    assert_eq!(rt; (totals.bound, totals.value, totals.claimed), (90, 40, 2));
    Ok(())
}

#[test]
fn a_seat_sees_what_another_gave(rt: HostRuntime) -> Result<(), Fail> {
    let (board, mut seat) = Board::new(rt.alloc(), 10)?;
    let mut other = board.split(&mut seat);
    board.lower(&mut other, 90);
    board.raise(&mut other, 40);
    assert_eq!(rt; board.look_bound(&mut seat), 90);
    assert_eq!(rt; board.look_value(&mut seat), 40);
    Ok(())
}
