// Tests of what reads and checks claims: documents, what is left out, rapid responses.
#![tactic(auto)]

#[cfg(test)]
mod ends;
#[cfg(test)]
mod explain_tests;
#[cfg(test)]
mod plan_doc_tests;
#[cfg(test)]
mod rapid_tests;
