// Time accounts: the ledger on which proposals are granted, held and charged seconds.
#![tactic(auto)]

mod asking;
mod booking;
mod entry;
mod fault;
mod granting;
mod key;
mod ledger;
mod lowering;
mod posting;
mod register;
mod store;
mod sums;

pub use entry::{Entry, EntryKind, Hold};
pub use fault::{FullOf, LedgerFault};
pub use key::{Account, Key};
pub use ledger::{Ledger, MOST_SECONDS_IN_ALL};
