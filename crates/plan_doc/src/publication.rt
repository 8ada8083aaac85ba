// A snapshot with a claim on it.

ghost use Rattle.std.specs.Prelude.{◌≡◌};

use plan_base::{Claim, Snapshot};

/// A snapshot, and a claim that was made on it: what an `export` line of a desk replies, and what a check reads.
pub struct Publication {
    /// What the plan is of.
    pub snapshot: Snapshot,
    /// The plan with its value, its bound and the prices that give it. It may be wrong: a check tells.
    pub claim: Claim,
}

impl Drop for Publication {
    fn drop(self) {
        let Self {
            snapshot: _,
            claim: _,
        } = self;
    }
}

impl Publication {
    /// Both apart.
    pub fn into_parts(self) -> (Snapshot, Claim)
        ensures same_snapshot { result.0 ≡ self.snapshot }
        ensures same_claim { result.1 ≡ self.claim }
    {
        let Publication { snapshot, claim } = self;
        (snapshot, claim)
    }
}
