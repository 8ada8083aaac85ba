// What holds of reading and writing together, each law the contract of a function that does nothing.

ghost use Rattle.plan_doc.specs.Laws.{ClaimsAreReadBack, ClaimsAreInRange, ClaimsAreDistinct, SnapshotsAreReadBack};
ghost use Rattle.plan_doc.specs.Laws.{SnapshotsAreInRange, SnapshotsAreDistinct, PublicationsAreReadBack, CertifiedClaimsAreInRange, ExportsAreCertified};

/// A law: the document of each claim in the ranges is read as that claim.
pub fn claims_are_read_back()
    ensures { ClaimsAreReadBack }
{}

/// A law: each claim that is read has its numbers and counts in the ranges.
pub fn claims_are_in_range()
    ensures { ClaimsAreInRange }
{}

/// A law: distinct claims, whose numbers have 64 bits, have distinct texts.
pub fn claims_are_distinct()
    ensures { ClaimsAreDistinct }
{}

/// A law: the document of each snapshot in the ranges is read as that snapshot.
pub fn snapshots_are_read_back()
    ensures { SnapshotsAreReadBack }
{}

/// A law: the parts that are read as a snapshot have their numbers and counts in the ranges.
pub fn snapshots_are_in_range()
    ensures { SnapshotsAreInRange }
{}

/// A law: distinct snapshots, whose numbers have 64 bits, have distinct texts.
pub fn snapshots_are_distinct()
    ensures { SnapshotsAreDistinct }
{}

/// A law: an object that has the documents of a snapshot and of a claim, in the ranges, is read as these two.
pub fn publications_are_read_back()
    ensures { PublicationsAreReadBack }
{}

/// A law: each claim that is certified for a snapshot in the ranges has its numbers and counts in the ranges.
pub fn certified_claims_are_in_range()
    ensures { CertifiedClaimsAreInRange }
{}

/// A law: an object that has the documents of a snapshot in the ranges and of a claim that is certified for it is read as these two,
/// and the verdict on them is Yes, with the claim's value and bound.
pub fn exports_are_certified()
    ensures { ExportsAreCertified }
{}
