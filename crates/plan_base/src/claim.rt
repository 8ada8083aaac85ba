// What is said of a snapshot: a plan with its value, and prices with the bound that they give.

use crate::list::ListOf;
use crate::number::{RequestNo, SliceNo, TelescopeNo};

/// A request on a telescope, from the start of a slice on.
#[derive(Clone, Copy, Debug, PartialEq, Eq)]
pub struct Placement {
    /// What is observed; it stands in a plan once.
    pub request: RequestNo,
    /// Where, by its place in the snapshot's list.
    pub telescope: TelescopeNo,
    /// The slice that it starts with, counted from 1970-01-01T00:00:00Z like those of the horizon.
    pub slice: SliceNo,
}

/// A price for each request of a snapshot, in their order and in the units of its value: -10^12 to 10^12 in a claim that is
/// certified.
#[derive(Clone, Drop)]
pub struct Prices(pub ListOf<i64>);

/// A price for each second of each quota of a snapshot, in the units of a request's value: 0 to 200,000 in a claim that is
/// certified; the empty list stands for all 0.
#[derive(Clone, Drop)]
pub struct QuotaPrices(pub ListOf<u32>);

/// A plan with the value that it is said to have, and prices with the bound that they are said to give (the Lagrangian
/// dual bound of the model of Lampoudi, Saunders and Eastman 2015). It is certified where that is so: then no feasible
/// plan is worth more than the bound.
#[derive(Clone)]
pub struct Claim {
    /// The plan, in any order.
    pub placements: ListOf<Placement>,
    /// The prices of the requests: one for each, where it is certified.
    pub prices: Prices,
    /// The prices of a second of the quotas: one for each or none at all, where it is certified.
    pub quota_prices: QuotaPrices,
    /// What the plan is said to be worth: 0 to 10^12 in a document.
    pub value: u64,
    /// What no feasible plan is said to be worth more than: 0 to 10^17 in a document.
    pub bound: u64,
}

impl Drop for Claim {
    fn drop(self) {
        let Self {
            placements: _,
            prices: _,
            quota_prices: _,
            value: _,
            bound: _,
        } = self;
    }
}

/// How a plan is sought.
#[derive(Clone, Copy, PartialEq, Eq)]
pub struct Settings {
    /// How many sequences of rounds are run, 1 to 8. The steps of each are half of those of the one before it, and at
    /// least 1.
    pub lanes: u32,
    /// How many rounds a lane has, 1 to 256.
    pub rounds: u32,
    /// How many threads take lanes, 1 to 8.
    pub workers: u32,
}
