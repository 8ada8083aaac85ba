// The first start of each request.

ghost use Rattle.std.specs.Prelude.{◌≡◌, length, All};
ghost use Rattle.plan_base.specs.Requests.{listed, IsKnown};
ghost use Rattle.repair.specs.Firsts.{AreFirsts};
ghost use Rattle.repair.specs.Worths.{AreOffers};

use crate::offers::Offers;
use plan_base::{Placement, Snapshot};

/// Notes for each request, by its place, the first of these starts that is one of its own.
pub(crate) fn note_firsts(
    snapshot: &Snapshot,
    offers: &Offers,
    starts: &[Placement],
    firsts: &mut Vec<Option<Placement>>,
)
    requires offers { AreOffers snapshot.now offers.now }
    requires count { length firsts.old.items ≡ length (listed snapshot.now) }
    requires known { All (λ p. IsKnown snapshot.now p.request.0) starts.now }
    ensures { AreFirsts snapshot.now starts.now firsts.new.items }
{
    forget_all(firsts);
    for index in (0..starts.len()).rev() {
        let start = starts[index];
        let place = offers.place_of(snapshot, start.request);
        firsts[place] = Some(start);
    }
}

/// Forgets what is noted at each place.
pub(crate) fn forget_all<T: Copy + Drop>(notes: &mut Vec<Option<T>>)
    ensures count { length notes.new.items ≡ length notes.old.items }
    ensures none { All (λ note. note ≡ None) notes.new.items }
{
    for place in 0..notes.len() {
        notes[place] = None;
    }
}
