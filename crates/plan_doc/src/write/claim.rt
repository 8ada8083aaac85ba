// Claims, as they are written.

ghost use Rattle.std.specs.Prelude.{◌≡◌, IfOk, Ok, option_map};
ghost use Rattle.plan_json.specs.Exact.{IsExact};
ghost use Rattle.plan_json.specs.Values.{whole, list_of};
ghost use Rattle.plan_doc.specs.Ranges.{IsClaim};
ghost use Rattle.plan_doc.specs.Written.{format_given, numbers_given, claim_data, text_of_claim, claim_of_bytes};

use crate::write::form::InDocument;
use plan_base::{Claim, ListOf};
use plan_json::{Each, Json, json_text, object};
use std::alloc::{AllocError, Global};

/// The number of the format, where there are quota prices.
fn format_given(quota_prices: &ListOf<u32>) -> Option<u32>
    ensures { option_map whole result ≡ format_given quota_prices.now }
{
    if quota_prices.is_empty() {
        None
    } else {
        Some(2)
    }
}

/// The quota prices, where there are any.
fn prices_given(quota_prices: &ListOf<u32>) -> Option<&ListOf<u32>>
    ensures { option_map (λ prices. list_of whole prices.now) result ≡ numbers_given quota_prices.now }
{
    if quota_prices.is_empty() {
        None
    } else {
        Some(quota_prices)
    }
}

/// A claim as its document: a value of [`object!`] that has the members which [`write_claim`] names.
#[derive(Drop)]
pub struct ClaimDoc<'a>(pub &'a Claim);

impl<'a> Json for ClaimDoc<'a> {
    ghost value = { λ doc. claim_data doc.0.now };

    ghost levels = { 3 };

    fn write(&self, out: &mut Vec<u8>) -> Result<(), AllocError> {
        let claim = self.0;
        let format = format_given(&claim.quota_prices.0);
        let quota_prices = prices_given(&claim.quota_prices.0);
        object!(
            "bound": claim.bound,
            "format"?: &format,
            "placements": Each { form: InDocument, items: &claim.placements },
            "prices": &claim.prices.0,
            "quota_prices"?: &quota_prices,
            "value": claim.value,
        )
        .write(out)
    }
}

/// The document of a claim, as compact text with members in byte order and no newline: `bound`, `placements`, `prices`
/// and `value`, and where there are quota prices also `format`, which is 2, and `quota_prices`. A claim whose numbers
/// and counts are in the ranges of [`read_claim`] is read from it again. Fails only for want of memory.
///
/// [`read_claim`]: crate::read_claim
pub fn write_claim(alloc: Global, claim: &Claim) -> Result<Vec<u8>, AllocError>
    ensures text { IfOk result (λ bytes. bytes.items ≡ text_of_claim claim.now) }
    ensures reads_back { IfOk result
        (λ bytes. IsClaim claim.now → claim_of_bytes bytes.items ≡ Ok claim.now) }

    // The premise of the law on texts.
    ensures exact { IfOk result (λ _. IsExact (claim_data claim.now)) }
{
    json_text(alloc, &ClaimDoc(claim))
}
