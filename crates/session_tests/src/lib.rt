// Tests of a whole session, of one with several callers, of a book of two callers, and of a desk that two callers share.
#![tactic(auto)]

#[cfg(test)]
mod between;
#[cfg(test)]
mod book_tests;
#[cfg(test)]
mod ends;
#[cfg(test)]
mod live_tests;
#[cfg(test)]
mod passes_tests;
#[cfg(test)]
mod script;
#[cfg(test)]
mod session_tests;
#[cfg(test)]
mod two_passes;
