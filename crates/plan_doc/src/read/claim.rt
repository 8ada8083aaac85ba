// Claims.

ghost use Rattle.std.specs.Prelude.{◌≡◌, ◌≢◌, IfOk, IfErr, Ok, Err};
ghost use Rattle.plan_doc.specs.Limits.{highest_value, highest_bound};
ghost use Rattle.plan_json.specs.declared.fault.JsonFault.TheVariants.{NoMemory};
ghost use Rattle.plan_json.specs.declared.member.Member.TheVariants as key;
ghost use Rattle.plan_json.specs.Object.{member_of};
ghost use Rattle.plan_json.specs.Shown.{members_of};
ghost use Rattle.plan_json.specs.Whole.{number_in};
ghost use Rattle.plan_doc.specs.Claim.{placement_in, price_in, quota_price_in, quota_prices_of, claim_of};

use crate::read::number::number_at;
use plan_base::{Claim, ListOf, Placement, Prices, QuotaPrices, RequestNo, SliceNo, TelescopeNo};
use plan_json::{Doc, DocList, Element, JsonFault, Member, read_list};
use std::alloc::Global;

/// The format of a claim with prices of quotas.
const FORMAT: u32 = 2;

/// The most placements of a claim, and the most prices.
const MOST_LISTED: u32 = 4_096;

/// The most quota prices of a claim.
const MOST_QUOTAS: u32 = 1_024;

/// The greatest price that is read, and the least without its sign.
const HIGHEST_PRICE: i64 = 1_000_000_000_000_000;

/// The greatest price of a quota that is read.
const HIGHEST_QUOTA_PRICE: u64 = 1_000_000_000;

/// The greatest value that is read.
const HIGHEST_VALUE: i64 = 1_000_000_000_000;

/// The greatest bound that is read.
const HIGHEST_BOUND: i64 = 100_000_000_000_000_000;

/// Request, telescope and slice.
struct Placements;

impl Element<Placement> for Placements {
    ghost element_in = { placement_in };

    fn read(&self, _alloc: Global, list: &DocList, index: u32) -> Result<Placement, JsonFault> {
        let triple = list.list(index, 3)?;
        let request = number_at(&triple, 0, u64::from(u32::MAX))?;
        let telescope = number_at(&triple, 1, u64::from(u16::MAX))?;
        let slice = number_at(&triple, 2, u64::from(u32::MAX))?;
        Ok(Placement {
            request: RequestNo(request as u32),
            telescope: TelescopeNo(telescope as u16),
            slice: SliceNo(slice as u32),
        })
    }
}

/// Prices of requests.
struct RequestPrices;

impl Element<i64> for RequestPrices {
    ghost element_in = { price_in };

    fn read(&self, _alloc: Global, list: &DocList, index: u32) -> Result<i64, JsonFault> {
        list.whole(index, -HIGHEST_PRICE, HIGHEST_PRICE)
    }
}

/// Prices of the seconds of quotas.
struct SecondPrices;

impl Element<u32> for SecondPrices {
    ghost element_in = { quota_price_in };

    fn read(&self, _alloc: Global, list: &DocList, index: u32) -> Result<u32, JsonFault> {
        let price = number_at(list, index, HIGHEST_QUOTA_PRICE)?;
        Ok(price as u32)
    }
}

/// The quota prices of a claim of that format.
fn read_quota_prices(
    alloc: Global,
    doc: &Doc,
    format: Option<u32>,
) -> Result<ListOf<u32>, JsonFault>
    ensures value { IfOk result (λ prices. quota_prices_of format (members_of doc.now) ≡ Ok prices) }
    ensures fault { IfErr result
        (λ e. e ≢ NoMemory → quota_prices_of format (members_of doc.now) ≡ Err e) }
{
    match format {
        None => Ok(ListOf::new(alloc)),
        Some(_) => read_list(
            alloc,
            &SecondPrices,
            doc,
            Member::QuotaPrices,
            1,
            MOST_QUOTAS,
        ),
    }
}

#[tactic(auto, using(crate::proofs::Numbers::member_number))]
fn read_value(doc: &Doc) -> Result<u64, JsonFault>
    ensures { result ≡ member_of (number_in 0 highest_value) (members_of doc.now) key.Value }
{
    let value = doc.whole(Member::Value, 0, HIGHEST_VALUE)?;
    Ok(value as u64)
}

#[tactic(auto, using(crate::proofs::Numbers::member_number))]
fn read_bound(doc: &Doc) -> Result<u64, JsonFault>
    ensures { result ≡ member_of (number_in 0 highest_bound) (members_of doc.now) key.Bound }
{
    let bound = doc.whole(Member::Bound, 0, HIGHEST_BOUND)?;
    Ok(bound as u64)
}

/// The claim that the document is, or its first fault. Its members are read in this order, and others aren't looked at:
///
/// - `format`: 2, for a claim with quota prices. One without it is of version 1 and has none.
/// - `placements`: 0 to 4,096 lists of request, 0 to 4,294,967,295, telescope, 0 to 65,535, and slice, 0 to
///   4,294,967,295.
/// - `prices`: 0 to 4,096 numbers from -10^15 to 10^15.
/// - `quota_prices`, read only where there is a `format`: 1 to 1,024 numbers from 0 to 10^9.
/// - `value`: 0 to 10^12.
/// - `bound`: 0 to 10^17.
///
/// Fails with a member's fault as [`Doc`] has it, the faults of an element naming its list, and for want of memory.
pub fn read_claim(alloc: Global, doc: &Doc) -> Result<Claim, JsonFault>
    ensures value { IfOk result (λ claim. claim_of (members_of doc.now) ≡ Ok claim) }
    ensures fault { IfErr result (λ e. e ≢ NoMemory → claim_of (members_of doc.now) ≡ Err e) }
{
    let format = doc.optional_number(Member::Format, FORMAT, FORMAT)?;
    let placements = read_list(alloc, &Placements, doc, Member::Placements, 0, MOST_LISTED)?;
    let prices = read_list(alloc, &RequestPrices, doc, Member::Prices, 0, MOST_LISTED)?;
    let quota_prices = read_quota_prices(alloc, doc, format)?;
    let value = read_value(doc)?;
    let bound = read_bound(doc)?;
    Ok(Claim {
        placements,
        prices: Prices(prices),
        quota_prices: QuotaPrices(quota_prices),
        value,
        bound,
    })
}
