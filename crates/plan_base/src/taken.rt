// What a solver takes from a desk, and what it finds.

ghost use Rattle.std.specs.Prelude.{◌≡◌};

use crate::claim::{Claim, Settings};
use crate::snapshot::Snapshot;

/// What a desk hands out to be planned.
#[derive(Clone)]
pub struct Taken {
    /// The caller whose line asked for it, 0 to 7.
    pub caller: u8,
    /// How the plan is to be sought.
    pub settings: Settings,
    /// What is to be planned; its parts carry the desk's version.
    pub snapshot: Snapshot,
}

impl Drop for Taken {
    fn drop(self) {
        let Self {
            caller: _,
            settings: _,
            snapshot: _,
        } = self;
    }
}

impl Taken {
    /// What is to be planned.
    pub fn into_snapshot(self) -> Snapshot
        ensures { result ≡ self.snapshot }
    {
        let Self {
            caller: _,
            settings: _,
            snapshot,
        } = self;
        snapshot
    }
}

/// What a solver finds.
#[derive(Drop)]
pub enum Outcome {
    /// A plan with its bound.
    Plan(Claim),
    /// So many possible starts, more than the 1,048,576 that are planned.
    TooManyStarts(u64),
}
