// The generator that all draws come from.

ghost use Rattle.std.specs.Prelude.{◌≡◌, ◌<◌};
ghost use Rattle.workload.specs.Generator.{next_number, drawn_at};

/// The generator, a linear congruential one modulo 2^64 with the constants of Knuth's MMIX: a number, which each draw replaces
/// by the next, to take its upper 31 bits.
#[derive(Drop)]
pub(crate) struct Draws {
    /// That number.
    pub x: u64,
}

impl Draws {
    /// Goes on to the next number.
    #[tactic(auto, unfolding(crate::specs::Generator::next_number))]
    fn go_on(&mut self)
        ensures { self.new.x ≡ next_number self.old.x }
    {
        self.x = self
            .x
            .wrapping_mul(6_364_136_223_846_793_005)
            .wrapping_add(1_442_695_040_888_963_407);
    }

    /// A number below the one that is given.
    #[tactic(auto, unfolding(crate::specs::Generator::drawn_at))]
    pub(crate) fn draw(&mut self, below: u32) -> u32
        requires { 0 < below }
        ensures next { self.new.x ≡ next_number self.old.x }
        ensures drawn { result ≡ drawn_at self.new.x below }
        ensures below { result < below }
    {
        self.go_on();
        let high = (self.x / 8_589_934_592) as u32;
        high % below
    }
}
