// The workload, line after line.

ghost use Rattle.std.specs.Prelude.{◌≡◌, IfOk, OnOk, OnErr, option_map};
ghost use Rattle.workload.specs.Lines.{line_next, one_given};

use crate::draws::Draws;
use crate::line::line_about;
use crate::subject::subject_at;
use std::alloc::{AllocError, Global};
use std::marker::Model;

/// How many lines a workload has.
const LINES: u32 = 211;

/// The lines of a realistic night, drawn from one number: 6 telescopes at three sites, 40 targets, 4 proposals, 70 groups of
/// all kinds with 120 requests in all, and at last a plan. Contracts see the number, the workers, and how many lines were
/// given.
#[derive(Drop)]
pub struct Workload {
    number: u32,
    workers: u32,
    given: u32,
    draws: Draws,
}

impl Model for Workload {
    ghost use Rattle.std.specs.Prelude.{◌≡◌, ◌≤◌};
    ghost use Rattle.workload.specs.Lines.{WorkloadSeen, number_before};

    ghost Value = { WorkloadSeen };

    ghost view = { λ w. record { number = w.number; workers = w.workers; given = w.given } };

    ghost invariant = { λ w. (w.given ≤ 211) × (w.draws.x ≡ number_before w.number w.given) };
}

impl Workload {
    /// The workload of a number, whose desk seeks its plan with so many workers, 1 to 8; with others its `open` line is
    /// refused. It takes no memory.
    pub fn new(number: u32, workers: u32) -> Self
        ensures { result ≡ record { number = number; workers = workers; given = 0 } }
    {
        Workload {
            number,
            workers,
            given: 0,
            draws: Draws {
                x: u64::from(number),
            },
        }
    }

    /// The next line, without its newline; none exactly after the last one, line 211. Fails only for want of memory, and
    /// then changes nothing.
    pub fn next(&mut self, alloc: Global) -> Result<Option<Vec<u8>>, AllocError>
        ensures line { IfOk result (λ line. option_map (λ bytes. bytes.items) line ≡ line_next self.old) }
        ensures given { OnOk result (self.new ≡ one_given self.old) }
        ensures unchanged { OnErr result (self.new ≡ self.old) }
    {
        if self.given >= LINES {
            return Ok(None);
        }
        let mut draws = Draws { x: self.draws.x };
        let line = line_about(alloc, &mut draws, self.workers, subject_at(self.given))?;
        self.draws = draws;
        self.given += 1;
        Ok(Some(line))
    }
}
