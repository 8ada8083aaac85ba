// The prices of one lane, from round to round.

ghost use Rattle.std.specs.Prelude.{◌≡◌, ◌+◌, ◌<◌, length, replicate, IfOk};
ghost use Rattle.plan_base.specs.Limits.{most_rounds, most_lanes};
ghost use Rattle.plan_base.specs.declared.parts.Parts.{Parts};
ghost use Rattle.plan_base.specs.Requests.{listed};
ghost use Rattle.plan_base.specs.Canonical.{IsCanonicalStarts};
ghost use Rattle.plan_base.specs.Round.{greatest_value};
ghost use Rattle.lanes.specs.Rounds.{IsLane};

use groups::net;
use interval_solver::Uses;
use plan_base::{ListOf, Prices, QuotaPrices, Snapshot};
use prices::{advance, step_of, zero_prices, zero_quota_prices};
use std::alloc::{AllocError, Global};

/// The prices of a lane's next round.
pub(crate) struct LanePrices {
    /// The lane, below 8.
    pub(crate) lane: u32,
    /// How many rounds were made.
    pub(crate) made: u32,
    pub(crate) prices: Prices,
    pub(crate) quota_prices: QuotaPrices,
}

impl Drop for LanePrices {
    fn drop(self) {
        let Self {
            lane: _,
            made: _,
            prices: _,
            quota_prices: _,
        } = self;
    }
}

impl LanePrices {
    /// Lane 0 at its first round. Fails only for want of memory.
    pub(crate) fn new(alloc: Global, snapshot: &Snapshot) -> Result<LanePrices, AllocError>
        ensures { IfOk result (IsLane snapshot.now) }
    {
        Ok(LanePrices {
            lane: 0,
            made: 0,
            prices: zero_prices(alloc, snapshot.request_count())?,
            quota_prices: zero_quota_prices(alloc, snapshot.parts().quotas.len())?,
        })
    }

    /// Begins a lane, below 8, at its first round: all prices are 0.
    pub(crate) fn begin(&mut self, lane: u32)
        requires { lane < most_lanes }
        ensures lane { self.new.lane ≡ lane }
        ensures made { self.new.made ≡ 0 }
        ensures is_lane { (s : Parts) → IsLane s self.old → IsLane s self.new }
    {
        self.lane = lane;
        self.made = 0;
        clear_prices(&mut self.prices.0, 0);
        clear_prices(&mut self.quota_prices.0, 0);
    }

    /// Moves the prices on to those of the next round, of 256 at most, by what all telescopes start at them and the
    /// greatest value of a request. Net prices are written on the way.
    pub(crate) fn advance(
        &mut self,
        snapshot: &Snapshot,
        greatest: u32,
        uses: &Uses<'_>,
        net_prices: &mut Prices,
    )
        requires lane { IsLane snapshot.now self.old }
        requires made { self.old.made < most_rounds }
        requires greatest { greatest ≡ greatest_value snapshot.now }
        requires same_snapshot { uses.now.snapshot ≡ snapshot.now }
        requires starts { IsCanonicalStarts snapshot.now self.old.prices.0 uses.now.starts }
        requires room { length net_prices.old.0 ≡ length (listed snapshot.now) }
        ensures lane { self.new.lane ≡ self.old.lane }
        ensures made { self.new.made ≡ self.old.made + 1 }
        ensures is_lane { IsLane snapshot.now self.new }
        ensures room { length net_prices.new.0 ≡ length (listed snapshot.now) }
    {
        snapshot.recall_valid();
        let step = step_of(self.lane, self.made, greatest);
        net(snapshot, &self.prices, &self.quota_prices, net_prices);
        advance(
            snapshot,
            &mut self.prices,
            &mut self.quota_prices,
            net_prices,
            uses.counts(),
            step,
        );
        self.made += 1;
    }
}

/// Makes all prices the same.
fn clear_prices<T: Copy + Drop>(prices: &mut ListOf<T>, price: T)
    ensures { prices.new ≡ replicate (length prices.old) price }
{
    for place in 0..prices.len() {
        prices.set(place, price);
    }
}
