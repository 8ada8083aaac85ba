// The telescopes of a snapshot, and those of a request.

ghost use Rattle.std.specs.Prelude.{◌≡◌, ◌≤◌, ◌<◌, ◌↔◌, length, IsTrue, Contains, MatchOption, HoldsAt};

use plan_base::{Parts, RequestPart, TelescopeNo, TelescopePart};

/// Whether the telescope is one of the request's.
pub(crate) fn is_able(request: &RequestPart, telescope: TelescopeNo) -> bool
    ensures { IsTrue result ↔ Contains request.now.telescopes telescope }
{
    request.telescopes.as_slice().contains(&telescope)
}

/// The part of the telescope with this number, if there is one.
pub(crate) fn telescope_at(parts: &Parts, telescope: TelescopeNo) -> Option<&TelescopePart>
    ensures { MatchOption result
        (length parts.now.telescopes ≤ telescope.0)
        (λ part. (telescope.0 < length parts.now.telescopes) × HoldsAt (λ x. x ≡ part.now) parts.now.telescopes telescope.0) }
{
    parts.telescopes.as_slice().get(usize::from(telescope.0))
}
