// The checker of claims, which stands on the definitions alone and trusts nobody.
#![tactic(auto)]

mod best;
mod bound;
mod kinds;
mod known;
mod nets;
mod overlap;
mod possible;
mod quotas;
mod ranges;
mod rebate;
mod sight;
mod starts;
mod stretches;
mod table;
mod value;
mod verdict;
mod worth;

pub use best::best_of;
pub use bound::{bound_of, rebate_sum};
pub use known::{known_group, request_of};
pub use nets::{cost_of, price_of};
pub use quotas::known_quota;
pub use rebate::rebate_of;
pub use sight::{Sight, find_views, stretch_in_sight};
pub use starts::{has_telescope, starts_of};
pub use stretches::{Observation, Stretch};
pub use table::{Start, fill_table};
pub use verdict::check;
pub use worth::{Offer, offer_of, weight_at};
