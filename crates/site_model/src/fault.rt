// Why the network refuses.

ghost use Rattle.std.specs.Prelude.{◌≡◌, None, Some, IfErr, OnOk};
ghost use Rattle.site_model.specs.declared.fault.SiteFault.TheVariants.{NoMemory};
ghost use Rattle.site_model.specs.Limits.{most_of, full, full_of};

use plan_base::{MOST_TELESCOPES, MOST_VISIBILITY};
use std::alloc::{AllocError, AllocFailed};
use thiserror::Error;

/// What a network has a most of.
#[derive(Clone, Copy, Debug)]
pub enum FullOf {
    /// The instrument types, at most 64.
    Instruments,
    /// The telescopes of all sites, at most 32.
    Telescopes,
    /// The sites of which a telescope was registered, at most 16.
    Sites,
    /// The targets that a request or a sky has named, at most 2,048.
    Targets,
    /// The pieces of the skies of all targets at all sites, at most 262,144.
    Visibility,
    /// The pieces of one telescope's closures, at most 512.
    Closures,
}

impl FullOf {
    /// How many there may be.
    pub(crate) fn most(self) -> usize
        ensures { result ≡ most_of self }
    {
        match self {
            FullOf::Instruments => 64,
            FullOf::Telescopes => MOST_TELESCOPES,
            FullOf::Sites => 16,
            FullOf::Targets => 2_048,
            FullOf::Visibility => MOST_VISIBILITY,
            FullOf::Closures => 512,
        }
    }

    /// `Full` where there are as many as there may be.
    pub(crate) fn check_room(self, count: usize) -> Result<(), SiteFault>
        ensures room { OnOk result (full_of self count ≡ None) }
        ensures full { IfErr result (λ fault. full_of self count ≡ Some fault) }
    {
        if count >= self.most() {
            return Err(SiteFault::full(self));
        }
        Ok(())
    }
}

/// Why the network refuses a call. It is then as before.
#[derive(Clone, Copy, Debug, Error)]
pub enum SiteFault {
    /// No telescope has this code.
    #[error("there is no such telescope")]
    NoSuchTelescope,
    /// No telescope is at a site of this name.
    #[error("there is no such site")]
    NoSuchSite,
    /// The instrument or the telescope is registered already.
    #[error("it is registered already")]
    Repeated,
    /// There would be more than there may be.
    #[error("there may be at most {limit} {what:?}")]
    Full { limit: u64, what: FullOf },
    /// The telescope carries an instrument that isn't registered: the first such, by its place in the list.
    #[error("instrument {index} isn't registered")]
    NoSuchInstrument { index: u32 },
    /// Memory ran out.
    #[error("out of memory")]
    NoMemory,
}

impl SiteFault {
    /// There would be more than there may be.
    pub(crate) fn full(what: FullOf) -> SiteFault
        ensures { result ≡ full what }
    {
        SiteFault::Full {
            limit: what.most() as u64,
            what,
        }
    }
}

impl From<AllocError> for SiteFault {
    ghost from_gives = { λ _ fault. fault ≡ NoMemory };

    fn from(_error: AllocError) -> SiteFault {
        SiteFault::NoMemory
    }
}

impl<T: Drop> From<AllocFailed<T>> for SiteFault {
    ghost from_gives = { λ _ fault. fault ≡ NoMemory };

    fn from(_error: AllocFailed<T>) -> SiteFault {
        SiteFault::NoMemory
    }
}
