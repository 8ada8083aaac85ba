// Whether a request's starts give more than a telescope's table has.

ghost use Rattle.std.specs.Prelude.{◌≡◌, ◌+◌, ◌<◌, ◌+ℤ◌, false, length, All};
ghost use Rattle.plan_base.specs.Tables.{entry, row};
ghost use Rattle.plan_base.specs.Verdict.{IsPriceInRange};
ghost use Rattle.bound_checker.specs.Tables.{IsWeight, IsEntry};
ghost use Rattle.openings.specs.Openings.{AreOpenings};
ghost use Rattle.rapid.specs.Tables.{IsEnough, IsEnoughAt};

use bound_checker::weight_at;
use openings::Openings;
use plan_base::{Prices, Snapshot, TelescopeNo};

/// Whether a start of the request on the telescope gives more, with what may follow it, than the table has at its slice.
pub(crate) fn raises(
    snapshot: &Snapshot,
    prices: &Prices,
    openings: &Openings,
    telescope: TelescopeNo,
    table: &[i64],
) -> bool
    requires range { All IsPriceInRange prices.now.0 }
    requires openings { AreOpenings snapshot.now prices.now.0 openings.now }
    requires telescope { telescope.0 < length snapshot.now.telescopes }
    requires count { length table.now ≡ snapshot.now.slices + 1 }
    requires entries { All IsEntry table.now }
    ensures { result ≡ false → IsEnough openings.now.offer snapshot.now.first.0 (row openings.now.rows.items telescope.0) table.now }
{
    for index in 0..openings.rows[usize::from(telescope.0)].len() {
        if raises_at(snapshot, prices, openings, telescope, table, index) {
            return true;
        }
    }
    false
}

/// Whether it does at a slice of the horizon.
fn raises_at(
    snapshot: &Snapshot,
    prices: &Prices,
    openings: &Openings,
    telescope: TelescopeNo,
    table: &[i64],
    index: usize,
) -> bool
    requires range { All IsPriceInRange prices.now.0 }
    requires openings { AreOpenings snapshot.now prices.now.0 openings.now }
    requires telescope { telescope.0 < length snapshot.now.telescopes }
    requires count { length table.now ≡ snapshot.now.slices + 1 }
    requires entries { All IsEntry table.now }
    requires index { index < length (row openings.now.rows.items telescope.0) }
    ensures { result ≡ false → IsEnoughAt openings.now.offer snapshot.now.first.0 (row openings.now.rows.items telescope.0) table.now index }
{
    let flags = openings.rows[usize::from(telescope.0)].as_slice();
    if !flags[index] {
        return false;
    }
    let first = u64::from(snapshot.parts().first.0);
    let weight = weight_at(&openings.offer, first + index as u64);
    gain_of(weight, table, index + openings.offer.size as usize) > table[index]
}

/// What a start of this weight gives with what may follow it from a slice of the horizon on.
fn gain_of(weight: i64, table: &[i64], after: usize) -> i64
    requires weight { IsWeight weight }
    requires after { after < length table.now }
    requires entries { All IsEntry table.now }
    ensures { result ≡ weight +ℤ entry table.now after }
{
    weight + table[after]
}
