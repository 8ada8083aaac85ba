// Equal copies.

ghost use Rattle.std.specs.Prelude.{◌≡◌, IfOk};

use crate::claim::Claim;
use crate::parts::Parts;
use crate::taken::Taken;
use std::alloc::AllocError;

impl Parts {
    /// The same parts once more. Fails only for want of memory.
    pub fn copy(&self) -> Result<Parts, AllocError>
        ensures { IfOk result (λ copy. copy ≡ self.now) }
    {
        self.clone()
    }
}

impl Claim {
    /// The same claim once more. Fails only for want of memory.
    pub fn copy(&self) -> Result<Claim, AllocError>
        ensures { IfOk result (λ copy. copy ≡ self.now) }
    {
        self.clone()
    }
}

impl Taken {
    /// The same once more. Fails only for want of memory.
    pub fn copy(&self) -> Result<Taken, AllocError>
        ensures { IfOk result (λ copy. copy ≡ self.now) }
    {
        self.clone()
    }
}
