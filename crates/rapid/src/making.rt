// What an insertion makes, before it is put in.

ghost use Rattle.std.specs.Prelude.{◌≡◌, ◌≢◌, ◌<◌, ◌+◌, ◌-◌, ◌^◌, None, Some, length, HoldsAt, IfOk, OnOk, IfErr};
ghost use Rattle.plan_base.specs.Requests.{listed};
ghost use Rattle.plan_base.specs.Verdict.{IsCertified};
ghost use Rattle.plan_base.specs.declared.parts.GroupPart.{GroupPart};
ghost use Rattle.plan_base.specs.declared.parts.Op.TheVariants.{Single};
ghost use Rattle.rapid.specs.Insertion.{with_group};
ghost use Rattle.rapid.specs.Tables.{AreTables};
ghost use Rattle.rapid.specs.Refused.{refusal_of, IsGroupInRanges};
ghost use Rattle.rapid.specs.Inside.{IsExtended, joined, IsMadeOf};
ghost use Rattle.rapid.specs.declared.fault.RapidFault.TheVariants.{NoMemory};

use crate::fault::RapidFault;
use crate::inserted::Inserted;
use crate::placing::{Placing, place};
use crate::pricing::{Pricing, price};
use crate::tables::Extension;
use plan_base::{
    Claim, GroupPart, ListOf, QuotaPrices, RequestNo, RequestPart, Snapshot, value_limit,
};
use std::alloc::{AllocError, Global};

/// A claim on a snapshot with one more group, and what belongs to it.
#[derive(Drop)]
pub(crate) struct Priced {
    /// The claim, certified for that snapshot.
    pub claim: Claim,
    /// What each telescope gives from each slice of the horizon on, at the claim's prices.
    pub tables: ListOf<ListOf<i64>>,
    /// The requests that had to go for the new one, in rising order.
    pub displaced: ListOf<RequestNo>,
    /// Where the new request is placed.
    pub inserted: Inserted,
}

/// A snapshot with one more group, and the claim on it.
#[derive(Drop)]
pub(crate) struct Made {
    /// The snapshot, the group at its end.
    pub snapshot: Snapshot,
    /// The claim, with what belongs to it.
    pub priced: Priced,
}

/// The snapshot with one more group at its end.
fn with_group(alloc: Global, snapshot: &Snapshot, group: GroupPart) -> Result<Snapshot, RapidFault>
    requires { IsGroupInRanges group }
    ensures ok { IfOk result (λ new. new ≡ with_group snapshot.now group) }
    ensures accepted { OnOk result (refusal_of snapshot.now group ≡ None) }
    ensures err { IfErr result (λ fault. fault ≢ NoMemory → refusal_of snapshot.now group ≡ Some fault) }
{
    if !group.op.is_single() {
        return Err(RapidFault::NotSingle { group: group.group });
    }
    let mut parts = snapshot.parts().copy()?;
    parts.groups.push(group)?;
    Ok(Snapshot::build(alloc, parts)?)
}

/// The last request.
fn last_request(snapshot: &Snapshot) -> &RequestPart
    requires { 0 < length (listed snapshot.now) }
    ensures { HoldsAt (λ x. x.request ≡ result.now) (listed snapshot.now) (length (listed snapshot.now) - 1) }
{
    snapshot.request_at(snapshot.request_count() - 1)
}

/// What comes of a claim where its request is placed and priced so.
fn joined(claim: &Claim, quota_prices: QuotaPrices, placing: Placing, pricing: Pricing) -> Priced
    requires { claim.now.value + placing.gain < 2 ^ 64 }
    ensures { result ≡ joined claim.now quota_prices placing pricing }
{
    let claim = Claim {
        placements: placing.placements,
        prices: pricing.prices,
        quota_prices,
        value: claim.value + placing.gain,
        bound: pricing.bound,
    };
    Priced {
        claim,
        tables: pricing.tables,
        displaced: placing.displaced,
        inserted: placing.inserted,
    }
}

/// What comes of a claim where the snapshot has one more request, the one of a `SINGLE`, at its end. Fails only for want of
/// memory.
fn place_and_price(
    alloc: Global,
    before: &Snapshot,
    claim: &Claim,
    tables: &[ListOf<i64>],
    snapshot: &Snapshot,
) -> Result<Priced, AllocError>
    requires certified { IsCertified before.now claim.now }
    requires tables { AreTables before.now claim.now.prices.0 tables.now }
    requires extended { IsExtended before.now snapshot.now }
    ensures tables { IfOk result (λ priced. AreTables snapshot.now priced.claim.prices.0 priced.tables) }
    ensures made { IfOk result (λ priced. (group : GroupPart) → group.op ≡ Single → snapshot.now ≡ with_group before.now group
        → IsMadeOf before.now claim.now group snapshot.now priced) }
{
    before.recall_valid();
    snapshot.recall_valid();
    value_limit(snapshot);
    let request = last_request(snapshot);
    let extension = Extension {
        before,
        claim,
        tables,
        snapshot,
        request,
    };
    let quota_prices = claim.quota_prices.clone()?;
    let pricing = price(alloc, &extension)?;
    let placing = place(
        alloc,
        snapshot,
        claim.placements.as_slice(),
        request.request,
    )?;
    Ok(joined(claim, quota_prices, placing, pricing))
}

/// What the insertion of a group into a snapshot and a claim that is certified for it makes.
pub(crate) fn make(
    alloc: Global,
    snapshot: &Snapshot,
    claim: &Claim,
    tables: &[ListOf<i64>],
    group: GroupPart,
) -> Result<Made, RapidFault>
    requires ranges { IsGroupInRanges group }
    requires certified { IsCertified snapshot.now claim.now }
    requires tables { AreTables snapshot.now claim.now.prices.0 tables.now }
    ensures tables { IfOk result (λ made. AreTables made.snapshot made.priced.claim.prices.0 made.priced.tables) }
    ensures ok { IfOk result (λ made. IsMadeOf snapshot.now claim.now group made.snapshot made.priced) }
    ensures accepted { OnOk result (refusal_of snapshot.now group ≡ None) }
    ensures err { IfErr result (λ fault. fault ≢ NoMemory → refusal_of snapshot.now group ≡ Some fault) }
{
    let extended = with_group(alloc, snapshot, group)?;
    let priced = place_and_price(alloc, snapshot, claim, tables, &extended)?;
    Ok(Made {
        snapshot: extended,
        priced,
    })
}
