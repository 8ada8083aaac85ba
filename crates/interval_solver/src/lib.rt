// The best of a telescope at prices, and what it starts to reach it, at one list of prices or at several in step.
#![tactic(auto)]

mod blocks;
mod in_step;
mod listing;
mod numbers;
mod offer;
mod row_list;
mod rows;
mod solver;
mod start;
mod start_rows;
mod table;
mod uses;
mod vectors;
mod walk;

pub use numbers::zero_table;
pub use rows::Rows;
pub use solver::Solver;
pub use uses::Uses;
