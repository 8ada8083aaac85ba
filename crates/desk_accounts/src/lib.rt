// What the printed replies tell of the accounts: balances are grants less recorded charges, net of refunds.
#![tactic(auto)]

mod laws;

pub use laws::{
    balances_are_shown, balances_are_told, charges_are_covered, desks_are_kept, grants_are_few,
    holds_are_covered, refunds_are_told, requests_are_charged_once,
};
