// What a solver found for what it had taken.

ghost use Rattle.std.specs.Prelude.{◌≡◌};
ghost use Rattle.plan_base.specs.Solved.{IsOutcome};

use crate::taken::{Outcome, Taken};
use std::marker::Model;

/// What was taken from a desk, and the claim that is planned for its snapshot and its settings, where it has at most
/// 1,048,576 possible starts, or else their exact number. Contracts see both.
pub struct Solved {
    taken: Taken,
    outcome: Outcome,
}

impl Drop for Solved {
    fn drop(self) {
        let Self {
            taken: _,
            outcome: _,
        } = self;
    }
}

impl Model for Solved {
    ghost use Rattle.plan_base.specs.Solved.{SolvedTake, IsOutcome};

    ghost Value = { SolvedTake };

    ghost view = { λ a. record { taken = a.taken; outcome = a.outcome } };

    ghost invariant = { λ a. IsOutcome a.taken.snapshot a.taken.settings a.outcome };
}

impl Solved {
    /// The two together.
    pub fn new(taken: Taken, outcome: Outcome) -> Solved
        requires { IsOutcome taken.snapshot taken.settings outcome }
        ensures same_taken { result.taken ≡ taken }
        ensures same_outcome { result.outcome ≡ outcome }
    {
        Solved { taken, outcome }
    }

    /// What was taken.
    pub fn taken(&self) -> &Taken
        ensures value { result.now ≡ self.now.taken }
        ensures found { IsOutcome self.now.taken.snapshot self.now.taken.settings self.now.outcome }
    {
        &self.taken
    }

    /// What was found.
    pub fn outcome(&self) -> &Outcome
        ensures value { result.now ≡ self.now.outcome }
        ensures found { IsOutcome self.now.taken.snapshot self.now.taken.settings self.now.outcome }
    {
        &self.outcome
    }

    /// Both apart.
    pub fn into_parts(self) -> (Taken, Outcome)
        ensures same_taken { result.0 ≡ self.taken }
        ensures same_outcome { result.1 ≡ self.outcome }
        ensures found { IsOutcome result.0.snapshot result.0.settings result.1 }
    {
        let Solved { taken, outcome } = self;
        (taken, outcome)
    }
}
