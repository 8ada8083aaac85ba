// Whether two Takes are the same.

ghost use Rattle.std.specs.Prelude.{◌≡◌, ◌↔◌, IsTrue};

use plan_base::{Parts, Settings, Taken};

/// Whether two snapshots have the same parts.
fn are_same_parts(a: &Parts, b: &Parts) -> bool
    ensures { IsTrue result ↔ (a.now ≡ b.now) }
{
    a == b
}

/// Whether two settings are the same.
fn are_same_settings(a: &Settings, b: &Settings) -> bool
    ensures { IsTrue result ↔ (a.now ≡ b.now) }
{
    a == b
}

/// Whether the same was taken.
pub(crate) fn is_same(a: &Taken, b: &Taken) -> bool
    ensures { IsTrue result ↔ (a.now ≡ b.now) }
{
    a.caller == b.caller
        && are_same_settings(&a.settings, &b.settings)
        && are_same_parts(a.snapshot.parts(), b.snapshot.parts())
}
