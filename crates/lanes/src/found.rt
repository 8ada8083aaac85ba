// What rounds have found.

ghost use Rattle.std.specs.Prelude.{◌≡◌, ◌≤◌, length, IfOk, vec_capacity};
ghost use Rattle.std.specs.List.Sorted.{IsSortedBy, IsPermutation};
ghost use Rattle.plan_base.specs.Limits.{most_pending};
ghost use Rattle.plan_base.specs.Repaired.{is_listed_before};
ghost use Rattle.lanes.specs.Found.{nothing, cleared, lowered, raised, bettered};

use plan_base::{
    Claim, ListOf, MOST_PENDING, Placement, Prices, QuotaPrices, Snapshot, listing_of,
};
use prices::{zero_prices, zero_quota_prices};
use std::alloc::{AllocError, Global};
use std::marker::Model;

/// The least bound of rounds with the prices that first gave it, and the greatest value with the plan that first had it.
/// Before a round the bound is the greatest `u64`, and the value that which plans have to pass.
pub(crate) struct Found {
    bound: u64,
    prices: Prices,
    quota_prices: QuotaPrices,
    value: u64,
    /// It has room for all requests of a snapshot.
    plan: Vec<Placement>,
}

impl Drop for Found {
    fn drop(self) {
        let Self {
            bound: _,
            prices: _,
            quota_prices: _,
            value: _,
            plan: _,
        } = self;
    }
}

impl Model for Found {
    ghost use Rattle.std.specs.Prelude.{◌≤◌, vec_capacity};
    ghost use Rattle.plan_base.specs.Limits.{most_pending};
    ghost use Rattle.lanes.specs.Found.{FoundSeen};

    ghost Value = { FoundSeen };

    ghost view = { λ a. record { bound = a.bound; prices = a.prices.0; quota_prices = a.quota_prices.0; value = a.value; plan = a.plan.items } };

    ghost invariant = { λ a. most_pending ≤ vec_capacity a.plan };
}

impl Found {
    /// Nothing yet, and this value. Fails only for want of memory.
    pub(crate) fn new(alloc: Global, snapshot: &Snapshot, value: u64) -> Result<Found, AllocError>
        ensures { IfOk result (λ found. found ≡ nothing snapshot.now value) }
    {
        Ok(Found {
            bound: u64::MAX,
            prices: zero_prices(alloc, snapshot.request_count())?,
            quota_prices: zero_quota_prices(alloc, snapshot.parts().quotas.len())?,
            value,
            plan: Vec::with_capacity(alloc, MOST_PENDING)?,
        })
    }

    /// The least bound.
    pub(crate) fn bound(&self) -> u64
        ensures { result ≡ self.now.bound }
    {
        self.bound
    }

    /// The greatest value.
    pub(crate) fn value(&self) -> u64
        ensures { result ≡ self.now.value }
    {
        self.value
    }

    /// Forgets bound, value and plan; the prices stay, and nothing is said of their bound.
    pub(crate) fn clear(&mut self)
        ensures { self.new ≡ cleared self.old }
    {
        self.bound = u64::MAX;
        self.value = 0;
        self.plan.clear();
    }

    /// Keeps the plan that later ones have to pass.
    pub(crate) fn hold(&mut self, plan: &[Placement])
        requires { length plan.now ≤ most_pending }
        ensures { self.new ≡ record self.old { plan = plan.now } }
    {
        copy_plan(plan, &mut self.plan);
    }

    /// Keeps the bound of a round with its prices, where it is lower than all before.
    pub(crate) fn lower(&mut self, bound: u64, prices: &Prices, quota_prices: &QuotaPrices)
        requires count { length prices.now.0 ≡ length self.old.prices }
        requires quota_count { length quota_prices.now.0 ≡ length self.old.quota_prices }
        ensures { self.new ≡ lowered self.old bound prices.now.0 quota_prices.now.0 }
    {
        if bound < self.bound {
            self.bound = bound;
            copy_prices(&prices.0, &mut self.prices.0);
            copy_prices(&quota_prices.0, &mut self.quota_prices.0);
        }
    }

    /// The claim of what was found.
    pub(crate) fn into_claim(self) -> Claim
        ensures bound { result.bound ≡ self.bound }
        ensures prices { result.prices.0 ≡ self.prices }
        ensures quota_prices { result.quota_prices.0 ≡ self.quota_prices }
        ensures value { result.value ≡ self.value }
        ensures same { IsPermutation self.plan result.placements }
        ensures rising { IsSortedBy is_listed_before result.placements }
    {
        let Found {
            bound,
            prices,
            quota_prices,
            value,
            plan,
        } = self;
        Claim {
            placements: listing_of(plan),
            prices,
            quota_prices,
            value,
            bound,
        }
    }

    /// Keeps the plan of a round with its value, where it is greater than all before.
    pub(crate) fn raise(&mut self, value: u64, plan: &[Placement])
        requires { length plan.now ≤ most_pending }
        ensures { self.new ≡ raised self.old value plan.now }
    {
        if value > self.value {
            self.value = value;
            copy_plan(plan, &mut self.plan);
        }
    }

    /// Keeps what later rounds have found, where it is better.
    pub(crate) fn take(&mut self, later: &Found)
        requires count { length later.now.prices ≡ length self.old.prices }
        requires quota_count { length later.now.quota_prices ≡ length self.old.quota_prices }
        requires few { length later.now.plan ≤ most_pending }
        ensures { self.new ≡ bettered self.old later.now }
    {
        self.lower(later.bound, &later.prices, &later.quota_prices);
        self.raise(later.value, later.plan.as_slice());
    }
}

/// Copies prices into others of the same number.
fn copy_prices<T: Copy + Drop>(from: &ListOf<T>, into: &mut ListOf<T>)
    requires { length from.now ≡ length into.old }
    ensures { into.new ≡ from.now }
{
    for place in 0..from.len() {
        into.set(place, from.as_slice()[place]);
    }
}

/// Copies a plan into the room of another.
fn copy_plan(from: &[Placement], into: &mut Vec<Placement>)
    requires { length from.now ≤ vec_capacity into.old }
    ensures plan { into.new.items ≡ from.now }
    ensures room { vec_capacity into.new ≡ vec_capacity into.old }
{
    into.clear();
    for placement in from {
        into.push_reserved(*placement);
    }
}
