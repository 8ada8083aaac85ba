// Numbers without a sign.

ghost use Rattle.std.specs.Prelude.{◌≡◌, ◌≤◌, ◌<◌, ◌^◌, length, IfOk};
ghost use Rattle.plan_json.specs.Shown.{elements_of, element_of, named_by};
ghost use Rattle.plan_json.specs.Whole.{number_in};

use plan_json::{DocList, JsonFault};

/// The number from 0 to `most` at that place.
pub(crate) fn number_at(list: &DocList, index: u32, most: u64) -> Result<u64, JsonFault>
    requires within { index < length (elements_of list.now) }
    requires most { most < 2 ^ 63 }
    ensures value { result ≡ number_in 0 most (named_by list.now) (element_of list.now index) }
    ensures small { IfOk result (λ number. number ≤ most) }
{
    let whole = list.whole(index, 0, most as i64)?;
    Ok(whole as u64)
}
