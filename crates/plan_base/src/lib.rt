// Numbers, snapshots, plans and claims, with every definition on them.
#![tactic(auto)]

mod build;
mod claim;
mod copies;
mod counts;
mod fault;
mod greatest;
mod laws;
mod list;
mod listing;
mod max;
mod name;
mod number;
mod parts;
mod ranges;
mod rows;
mod sky;
mod slicing;
mod snapshot;
mod solved;
mod span;
mod state;
mod sum;
mod taken;
mod unique;
mod verdict;

pub use claim::{Claim, Placement, Prices, QuotaPrices, Settings};
pub use fault::{Counted, SnapshotFault};
pub use greatest::{
    LEAST_IPP, LEAST_LEN, MOST_ACCOUNTS, MOST_ASKED, MOST_CALLERS, MOST_CARRIED,
    MOST_CONFIGURATIONS, MOST_EXPOSURES, MOST_FADE, MOST_FIRST, MOST_GRANT, MOST_IPP, MOST_LANES,
    MOST_LEN, MOST_MEMBERS, MOST_MOMENT, MOST_MS, MOST_NAME, MOST_PENDING, MOST_PERCENT,
    MOST_PERIOD, MOST_PRICE, MOST_PRIORITY, MOST_QUOTA, MOST_QUOTA_PRICE, MOST_ROUNDS,
    MOST_SECONDS, MOST_SLICES, MOST_SPANS, MOST_STARTS, MOST_TELESCOPES, MOST_VALUE, MOST_VERSION,
    MOST_VISIBILITY, MOST_WINDOWS, MOST_WORKERS,
};
pub use laws::{
    bound_limit, bound_of_parts, empty_is_feasible, filled_is_saturated, planned_is_saturated,
    round_limit, table_has_bests, value_limit, weak_duality, worth_between,
};
pub use list::{ListOf, repeated};
pub use listing::listing_of;
pub use max::larger;
pub use name::Name;
pub use number::{GroupNo, RequestNo, Sec, SiteNo, SliceNo, TargetNo, TelescopeNo};
pub use parts::{GroupPart, Op, Parts, RequestPart, Sky, TelescopePart};
pub use sky::sky_of;
pub use slicing::{faded, least_from, slices_for};
pub use snapshot::Snapshot;
pub use solved::Solved;
pub use span::Span;
pub use state::RequestState;
pub use sum::Sum;
pub use taken::{Outcome, Taken};
pub use unique::{
    one_best, one_bound, one_canonical_use, one_filled_plan, one_rebate, one_repaired_plan,
    one_round, one_start_count, one_verdict,
};
pub use verdict::{Reason, Verdict};
