// Tests of what seeks plans: possible starts, telescopes at prices, repairs, rounds and lanes.
#![tactic(auto)]

#[cfg(test)]
mod interval_solver_tests;
#[cfg(test)]
mod lanes_tests;
#[cfg(test)]
mod prices_tests;
#[cfg(test)]
mod repair_tests;
#[cfg(test)]
mod snapshot_starts_tests;
