// What starts are worth.

ghost use Rattle.std.specs.Prelude.{◌≡◌, ◌≤◌, length, All};
ghost use Rattle.plan_base.specs.Limits.{most_value, most_pending};
ghost use Rattle.plan_base.specs.Starts.{IsPossibleStart, worth_at, value_of_plan};
ghost use Rattle.repair.specs.Worths.{AreOffers, IsOffer};

use crate::offers::{Offer, Offers};
use plan_base::{Placement, Snapshot, faded};

/// What a possible start is worth, by the offer of its request.
pub(crate) fn worth_of(snapshot: &Snapshot, offer: Offer, start: Placement) -> u32
    requires possible { IsPossibleStart snapshot.now start }
    requires offer { IsOffer snapshot.now start.request.0 offer }
    ensures value { result ≡ worth_at snapshot.now start }
    ensures most { result ≤ most_value }
{
    snapshot.recall_valid();
    let delay = u64::from(start.slice.0).saturating_sub(offer.earliest);
    faded(u64::from(offer.value), u64::from(offer.fade), delay) as u32
}

/// What a plan is worth.
pub(crate) fn value_of(snapshot: &Snapshot, offers: &Offers, plan: &[Placement]) -> u64
    requires possible { All (IsPossibleStart snapshot.now) plan.now }
    requires few { length plan.now ≤ most_pending }
    requires offers { AreOffers snapshot.now offers.now }
    ensures { result ≡ value_of_plan snapshot.now plan.now }
{
    let mut value = 0;
    for start in plan {
        let offer = offers.offer_of(snapshot, start.request);
        value += u64::from(worth_of(snapshot, offer, *start));
    }
    value
}
