// Three words that workers share: the least bound, the greatest value, and a counter from which they claim numbers.
#![tactic(auto)]

mod board;
mod rule;
mod seat;

pub use board::{Board, Totals};
pub use seat::{BoardSeat, SeatView};
