// Tests of readers and writers of std, documents, boards, and of when cadences are observed.
#![tactic(auto)]

#[cfg(test)]
mod board_tests;
#[cfg(test)]
mod plan_io_tests;
#[cfg(test)]
mod plan_json_tests;
#[cfg(test)]
mod request_times_tests;
