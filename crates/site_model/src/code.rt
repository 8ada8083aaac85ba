// What names a telescope, and what an instrument takes.

ghost use Rattle.std.specs.Prelude.{◌≤◌};
ghost use Rattle.plan_base.specs.Limits.{most_ms};

use plan_base::Name;

/// The three names of a telescope.
#[derive(PartialEq, Eq, Hash)]
pub struct Code {
    /// The site, such as `coj`.
    pub site: Name,
    /// The dome at the site, such as `doma`.
    pub enclosure: Name,
    /// The telescope in the dome, such as `1m0a`.
    pub telescope: Name,
}

impl Drop for Code {
    fn drop(self) {
        let Self {
            site: _,
            enclosure: _,
            telescope: _,
        } = self;
    }
}

/// Which telescopes a closure or a reopening is about.
pub enum Scope {
    /// The telescope of this code.
    Telescope(Code),
    /// All telescopes of the site that are registered so far.
    Site(Name),
}

impl Drop for Scope {
    fn drop(self) {
        match self {
            Self::Telescope(_) => {}
            Self::Site(_) => {}
        }
    }
}

/// What an instrument type needs beside the exposures, in milliseconds, each at most a day.
#[derive(Clone, Copy)]
pub struct InstrumentTimes {
    /// Before all else, once a request.
    pub front_ms: u32,
    /// Before each configuration.
    pub config_ms: u32,
    /// After each exposure.
    pub readout_ms: u32,
    /// Once for each instrument configuration, however many exposures it has.
    pub change_ms: u32,
    ghost front: { front_ms ≤ most_ms },
    ghost config: { config_ms ≤ most_ms },
    ghost readout: { readout_ms ≤ most_ms },
    ghost change: { change_ms ≤ most_ms },
}
