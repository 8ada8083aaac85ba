//! Counts of calls and of faults, and which calls are to fail.
ghost use Rattle.std.specs.Prelude.{◌≡◌, ◌↔◌, IsTrue, Contains};
ghost use Rattle.plan_io.specs.Source.{Rose};
ghost use Rattle.plan_io.specs.Calls.{next_count};

use std::marker::Model;

/// The calls that were made, the faults among them, and the numbers of those that are to fail, from 0.
#[derive(Drop)]
pub(crate) struct Calls {
    failing: Vec<u32>,
    made: u64,
    faults: u64,
}

impl Model for Calls {
    ghost use Rattle.plan_io.specs.Calls.{CallsSeen};

    ghost Value = { CallsSeen };

    ghost view = { λ calls. record { failing = calls.failing.items; made = calls.made; faults = calls.faults } };
}

impl Calls {
    pub(crate) fn new(failing: Vec<u32>) -> Self
        ensures { result ≡ record { failing = failing.items; made = 0; faults = 0 } }
    {
        Calls {
            failing,
            made: 0,
            faults: 0,
        }
    }

    /// Counts a call, and says whether it is to fail.
    pub(crate) fn begin(&mut self) -> bool
        ensures fails { IsTrue result ↔ Contains self.old.failing self.old.made }
        ensures made { self.new ≡ record self.old { made = next_count self.old.made } }
    {
        let number = self.made;
        self.made = self.made.saturating_add(1);
        self.failing.iter().any(|call| u64::from(*call) == number)
    }

    /// Counts a fault.
    pub(crate) fn fail(&mut self)
        ensures fault { self.new ≡ record self.old { faults = next_count self.old.faults } }
        ensures rose { Rose self.old.faults self.new.faults }
    {
        self.faults = self.faults.saturating_add(1);
    }
}
