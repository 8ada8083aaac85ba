// Published observations.

ghost use Rattle.std.specs.Prelude.{◌≡◌, ◌≤◌, ◌*◌};
ghost use Rattle.desk_runs.specs.Numbers.{is_placed};
ghost use Rattle.desk_runs.specs.Clock.{start_of, end_of, has_begun, has_ended};

use plan_base::{RequestNo, Sec, SliceNo, TelescopeNo};

/// A request that is to be observed on a telescope for so many seconds from the start of a slice on.
#[derive(Clone, Copy)]
pub struct Observation {
    /// Which request is observed.
    pub request: RequestNo,
    /// Which telescope observes it.
    pub telescope: TelescopeNo,
    /// The slice at whose start it begins, of the desk's slice length.
    pub slice: SliceNo,
    /// How long it takes, 1 to 86,400 seconds.
    pub seconds: u32,
}

impl Observation {
    /// The second at which it starts, where slices have `len` seconds.
    pub fn start(&self, len: u32) -> u64
        ensures start { result ≡ start_of len self.now }
        ensures most { result ≤ 4294967295 * 4294967295 }
    {
        u64::from(self.slice.0) * u64::from(len)
    }

    /// The second at which it ends.
    pub fn end(&self, len: u32) -> u64
        ensures { result ≡ end_of len self.now }
    {
        self.start(len) + u64::from(self.seconds)
    }

    /// Whether its start is below now.
    pub(crate) fn has_begun(&self, len: u32, now: Sec) -> bool
        ensures { result ≡ has_begun len now self.now }
    {
        self.start(len) < now.0
    }

    /// Whether its end is below now.
    pub(crate) fn has_ended(&self, len: u32, now: Sec) -> bool
        ensures { result ≡ has_ended len now self.now }
    {
        self.end(len) < now.0
    }
}

/// Whether a request is among those that are observed.
pub(crate) fn is_placed(observations: &[Observation], number: RequestNo) -> bool
    ensures { result ≡ is_placed observations.now number }
{
    observations.iter().any(|o| o.request.0 == number.0)
}
