// The requests of a group, with where, when and how long to observe.

ghost use Rattle.std.specs.Prelude.{◌≡◌, IfOk};

use plan_base::{ListOf, Name, Sec, Span};
use std::alloc::AllocError;

/// Where a request may be observed: on telescopes of a class and, where they are named, at that site, in that
/// enclosure, on that telescope.
#[derive(Clone)]
pub struct Location {
    /// The class of telescopes, as `1m0`.
    pub class: Name,
    /// The site's code, where it is named.
    pub site: Option<Name>,
    /// The enclosure's code, where it is named; several sites may have such a one.
    pub enclosure: Option<Name>,
    /// The telescope's code, where it is named; several enclosures may have such a one.
    pub telescope: Option<Name>,
}

impl Drop for Location {
    fn drop(self) {
        let Self {
            class: _,
            site: _,
            enclosure: _,
            telescope: _,
        } = self;
    }
}

/// Moments at an even distance, round each of which an observation is asked for: `start`, and from there every
/// `period` seconds, before `end`.
#[derive(Clone, Copy)]
pub struct Cadence {
    /// The first centre.
    pub start: Sec,
    /// The second before which all centres lie.
    pub end: Sec,
    /// The seconds from one centre to the next, 0 to 15,552,000; 0 makes the cadence a bad one.
    pub period: u64,
    /// The seconds that the window round a centre has, 0 to 15,552,000, half of them, rounded down, before
    /// the centre.
    pub jitter: u64,
}

/// When a request may be observed.
#[derive(Clone)]
pub enum When {
    /// Inside one of these, 1 to 32, each of which has a second.
    Windows(ListOf<Span>),
    /// Once round each centre.
    Cadence(Cadence),
}

impl Drop for When {
    fn drop(self) {
        match self {
            Self::Windows(_) => {}
            Self::Cadence(_) => {}
        }
    }
}

/// Exposures of one length, the portal's instrument configuration.
#[derive(Clone, Copy)]
pub struct Exposure {
    /// How long each one is, 1 to 86,400,000 milliseconds.
    pub ms: u32,
    /// How many there are, 1 to 10,000.
    pub count: u32,
}

/// What is taken of one target.
#[derive(Clone)]
pub struct ConfigDoc {
    /// The name of what is observed; its visibility is known by it.
    pub target: Name,
    /// 1 to 16, taken in this order.
    pub exposures: ListOf<Exposure>,
}

impl Drop for ConfigDoc {
    fn drop(self) {
        let Self {
            target: _,
            exposures: _,
        } = self;
    }
}

/// A request: one observation that is asked for, or with a cadence one round each centre.
pub struct RequestDoc {
    /// Where it may be observed.
    pub location: Location,
    /// When it may be observed.
    pub when: When,
    /// The instrument type of all configurations.
    pub instrument: Name,
    /// 1 to 16, taken in this order.
    pub configurations: ListOf<ConfigDoc>,
    /// The least percent, 0 to 100, that has to be taken for the request to be completed.
    pub threshold: u8,
    /// The thousandths of the value, 0 to 1,000, that are lost with each slice of delay.
    pub fade: u16,
}

impl Drop for RequestDoc {
    fn drop(self) {
        let Self {
            location: _,
            when: _,
            instrument: _,
            configurations: _,
            threshold: _,
            fade: _,
        } = self;
    }
}

impl Location {
    /// The same once more. Fails only for want of memory.
    pub fn copy(&self) -> Result<Location, AllocError>
        ensures { IfOk result (λ copy. copy ≡ self.now) }
    {
        self.clone()
    }
}

impl When {
    fn copy(&self) -> Result<When, AllocError>
        ensures { IfOk result (λ copy. copy ≡ self.now) }
    {
        self.clone()
    }
}

// By hand, since a derived one says too little for a list of requests to be known as equal.
impl Clone for RequestDoc {
    ghost is_clone = { λ x y. y ≡ x };

    fn clone(&self) -> Result<RequestDoc, AllocError> {
        Ok(RequestDoc {
            location: self.location.copy()?,
            when: self.when.copy()?,
            instrument: self.instrument.clone()?,
            configurations: self.configurations.clone()?,
            threshold: self.threshold,
            fade: self.fade,
        })
    }
}
