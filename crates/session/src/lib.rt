//! Sessions of the desk. Lines of one caller are read, done in order, and each answered by the text of its entries. Those of several
//! callers are read first, then done at once, and answered by the text of the whole history.
#![tactic(auto)]

mod laws;
mod line;
mod live;
mod replies;
mod run;
mod summary;
mod tally;
mod words;

pub use laws::{
    exports_are_checked, exports_are_last, one_history, one_summary, plans_are_published,
};
pub use live::run_live;
pub use run::run_session;
