// What one JSON value is read as. A fault names the member that it was read by.

ghost use Rattle.std.specs.Prelude.{◌≡◌, map, IfOk, IfErr, Ok, Err, ◌≢◌, ◌≤◌, length};
ghost use Rattle.serde_json.specs.View.{view, members_view};
ghost use Rattle.plan_json.specs.declared.fault.JsonFault.TheVariants.{NoMemory};
ghost use Rattle.plan_json.specs.Reading.{result_map};
ghost use Rattle.plan_json.specs.Whole.{whole_in, number_in};
ghost use Rattle.plan_json.specs.Text.{text_in};
ghost use Rattle.plan_json.specs.Moment.{moment_in};
ghost use Rattle.plan_json.specs.List.{elements_in, list_in};
ghost use Rattle.plan_json.specs.Span.{span_in};
ghost use Rattle.plan_json.specs.Object.{object_in};

use crate::fault::JsonFault;
use crate::member::Member;
use crate::moment::second_of;
use plan_base::{MOST_NAME, Name, Sec, Span};
use serde_json::{Map, Value};
use std::alloc::Global;

/// The last second of the year 9999.
const LAST_MOMENT: i64 = 253_402_300_799;

/// The whole number from `least` to `most`.
pub(crate) fn whole_in(
    value: &Value,
    member: Member,
    least: i64,
    most: i64,
) -> Result<i64, JsonFault>
    ensures { result ≡ whole_in member least most (view value.now) }
{
    let Some(number) = value.as_number() else {
        return Err(JsonFault::WrongKind { member });
    };
    let Some(whole) = number.as_i128() else {
        return Err(JsonFault::NotWhole { member });
    };
    if i128::from(least) <= whole && whole <= i128::from(most) {
        Ok(whole as i64)
    } else {
        Err(JsonFault::OutOfRange { member })
    }
}

/// The number without a sign from `least` to `most`.
pub(crate) fn number_in(
    value: &Value,
    member: Member,
    least: u32,
    most: u32,
) -> Result<u32, JsonFault>
    ensures value { result ≡ number_in least most member (view value.now) }
    ensures small { IfOk result (λ number. number ≤ most) }
{
    let whole = whole_in(value, member, i64::from(least), i64::from(most))?;
    Ok(whole as u32)
}

/// The text of 1 to 128 bytes, in place.
pub(crate) fn word_in(value: &Value, member: Member) -> Result<&str, JsonFault>
    ensures { result_map (λ word. word.now) result ≡ text_in member (view value.now) }
{
    let Some(word) = value.as_str() else {
        return Err(JsonFault::WrongKind { member });
    };
    if word.is_empty() || word.len() > MOST_NAME {
        return Err(JsonFault::OutOfRange { member });
    }
    Ok(word)
}

/// The text of 1 to 128 bytes.
pub(crate) fn text_in(alloc: Global, value: &Value, member: Member) -> Result<Name, JsonFault>
    ensures value { IfOk result (λ name. text_in member (view value.now) ≡ Ok name) }
    ensures fault { IfErr result (λ e. e ≢ NoMemory → text_in member (view value.now) ≡ Err e) }
{
    let word = word_in(value, member)?;
    Name::new(alloc, word)?.ok_or(JsonFault::OutOfRange { member })
}

/// The moment.
#[tactic(auto, using(crate::proofs::Values::moment_of_number))]
pub(crate) fn moment_in(value: &Value, member: Member) -> Result<Sec, JsonFault>
    ensures { result ≡ moment_in member (view value.now) }
{
    if let Some(text) = value.as_str() {
        let second = second_of(text.as_bytes()).ok_or(JsonFault::BadMoment { member })?;
        return Ok(Sec(second));
    }
    let second = whole_in(value, member, 0, LAST_MOMENT)?;
    Ok(Sec(second as u64))
}

/// The elements of the list.
#[tactic(auto, using(crate::proofs::Values::elements_of_items))]
pub(crate) fn elements_in(value: &Value, member: Member) -> Result<&[Value], JsonFault>
    ensures { result_map (λ items. map view items.now) result ≡ elements_in member (view value.now) }
{
    let items = value.as_array().ok_or(JsonFault::WrongKind { member })?;
    Ok(items.as_slice())
}

/// The elements of the list, if there are `least` to `most`.
pub(crate) fn counted(
    value: &Value,
    member: Member,
    least: u32,
    most: u32,
) -> Result<&[Value], JsonFault>
    ensures value { result_map (λ items. map view items.now) result
        ≡ list_in member least most (view value.now) }
    ensures few { IfOk result (λ items. length items.now ≤ most) }
{
    let items = elements_in(value, member)?;
    if least as usize <= items.len() && items.len() <= most as usize {
        Ok(items)
    } else {
        Err(JsonFault::OutOfRange { member })
    }
}

/// The span of two moments, of which the first comes before the second.
pub(crate) fn span_in(value: &Value, member: Member) -> Result<Span, JsonFault>
    ensures { result ≡ span_in member (view value.now) }
{
    let [from, to] = elements_in(value, member)? else {
        return Err(JsonFault::WrongKind { member });
    };
    let from = moment_in(from, member)?;
    let to = moment_in(to, member)?;
    if from < to {
        Ok(Span { from, to })
    } else {
        Err(JsonFault::OutOfRange { member })
    }
}

/// The members of the object.
pub(crate) fn object_in(value: &Value, member: Member) -> Result<&Map<String, Value>, JsonFault>
    ensures { result_map (λ found. members_view found.now.entries) result
        ≡ object_in member (view value.now) }
{
    value.as_object().ok_or(JsonFault::WrongKind { member })
}
