// Laws of insertions. Each is a function with nothing to do, whose contract states the law of its arguments.

ghost use Rattle.std.specs.Prelude.{◌≡◌, ℕ, ℤ, pos, List, None, Some};
ghost use Rattle.plan_base.specs.declared.parts.GroupPart.{GroupPart};
ghost use Rattle.plan_base.specs.Bound.{IsBound};
ghost use Rattle.plan_base.specs.Verdict.{IsCertified};
ghost use Rattle.rapid.specs.Standing.{Standing};
ghost use Rattle.rapid.specs.Insertion.{with_groups, InsertsEach};
ghost use Rattle.rapid.specs.Refused.{first_refusal};
ghost use Rattle.rapid.specs.Run.{WritesEach, IsCutOff};
ghost use Rattle.rapid.specs.Laws.{WritesInTurn, LinesHaveClaims, InsertionsAreChecked, ReadInsertionsAreChecked};

use crate::rapid::Rapid;

/// After every list of insertions the claim is certified for the snapshot with all groups at its end, and its bound is the
/// one that its prices give, worked out from scratch.
pub fn insertions_are_certified(rapid: &Rapid)
    ensures snapshot { (groups : List GroupPart) (after : Standing) → InsertsEach rapid.now groups after
        → after.snapshot ≡ with_groups rapid.now.snapshot groups }
    ensures certified { (groups : List GroupPart) (after : Standing) → InsertsEach rapid.now groups after → IsCertified after.snapshot after.claim }
    ensures bound { (groups : List GroupPart) (after : Standing) → InsertsEach rapid.now groups after
        → (bound : ℤ) → IsBound after.snapshot after.claim.prices.0 after.claim.quota_prices.0 bound → bound ≡ pos after.claim.bound }
{
    let _ = rapid.claim();
}

/// Groups are all inserted only where none of them is refused, and cut off only at the first that is, with its refusal: which
/// of the two is so, the snapshot and the groups decide.
pub fn refusals_decide()
    ensures whole { (before after : Standing) (groups : List GroupPart) (text : List ℕ) → WritesEach before groups text after
        → first_refusal before.snapshot groups ≡ None }
    ensures cut { (before : Standing) (groups : List GroupPart) (text : List ℕ) (cut : IsCutOff before groups text)
        → first_refusal before.snapshot groups ≡ Some cut.refusal }
{}

/// What is written of groups is what is written of each in turn. Where the claim of a document is certified, each line of an
/// insertion is read as an object, whose member `claim` is the claim that then stands, as it is written. An object that has this
/// beside the snapshot with the groups so far at its end is read as these two, and the verdict on them is Yes, with the claim's value
/// and bound: where the snapshot is as it is written, and in whatever other way it is read as that.
pub fn insertions_are_checked()
    ensures turns { WritesInTurn }
    ensures lines { LinesHaveClaims }
    ensures checked { InsertionsAreChecked }
    ensures read { ReadInsertionsAreChecked }
{}
