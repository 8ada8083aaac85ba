// When telescopes may observe: nights, closures and skies, by number.

ghost use Rattle.std.specs.Prelude.{◌≡◌, ◌≢◌, ◌<◌, ◌≤◌, [], All, IfOk, IfErr, OnOk, OnErr, length, replicate};
ghost use Rattle.interval_set.specs.Spans.{IsDifference};
ghost use Rattle.site_model.specs.declared.fault.SiteFault.TheVariants.{NoMemory};
ghost use Rattle.plan_base.specs.Limits.{most_telescopes, most_spans};
ghost use Rattle.site_model.specs.Limits.{most_sites, most_usable};
ghost use Rattle.site_model.specs.Calls.{ChangesOrRefuses};
ghost use Rattle.site_model.specs.Calendar.{no_calendar, set_at, sky_of, with_night, with_sky, sky_refusal};
ghost use Rattle.site_model.specs.Calendar.{IsListed, IsClosureLine, IsFullClosure, IsWithinLimits};

use crate::changes::{Change, changes_of, put};
use crate::fault::{FullOf, SiteFault};
use indexmap::IndexMap;
use interval_set::Spans;
use plan_base::{SiteNo, TargetNo, TelescopeNo};
use std::alloc::{AllocError, Global};
use std::marker::Model;

/// A target at a site.
#[derive(Clone, Copy, PartialEq, Eq, Hash)]
pub struct SkyKey {
    /// The number of the target.
    pub target: TargetNo,
    /// The number of the site.
    pub site: SiteNo,
}

/// The night of each site, the closures of each telescope, and the sky of each target at each site. There is a night and
/// there are closures for every number that there may be, without seconds at first.
pub(crate) struct Calendar {
    nights: Vec<Spans>,
    closures: Vec<Spans>,
    skies: IndexMap<SkyKey, Spans>,
    pieces: usize,
    nothing: Spans,
    alloc: Global,
}

impl Drop for Calendar {
    fn drop(self) {
        let Self {
            nights: _,
            closures: _,
            skies: _,
            pieces: _,
            nothing: _,
            alloc: _,
        } = self;
    }
}

impl Model for Calendar {
    ghost use Rattle.site_model.specs.Calendar.{CalendarSeen};

    ghost Value = { CalendarSeen };

    ghost use Rattle.site_model.specs.CalendarInside.{seen_calendar, IsCalendar};

    ghost view = { seen_calendar };

    ghost invariant = { IsCalendar };
}

impl Calendar {
    /// No seconds at any number. Fails only for want of memory.
    pub(crate) fn new(alloc: Global) -> Result<Self, AllocError>
        ensures { IfOk result (λ calendar. calendar ≡ no_calendar) }
    {
        Ok(Calendar {
            nights: no_sets(alloc, FullOf::Sites.most())?,
            closures: no_sets(alloc, FullOf::Telescopes.most())?,
            skies: IndexMap::new(alloc),
            pieces: 0,
            nothing: Spans::empty(alloc),
            alloc,
        })
    }

    /// Replaces the night of a site. Fails only for want of memory, and then changes nothing.
    pub(crate) fn set_night(&mut self, site: SiteNo, spans: &Spans) -> Result<(), AllocError>
        requires site { site.0 < most_sites }
        requires few { length spans.now ≤ most_spans }
        ensures ok { OnOk result (self.new ≡ with_night self.old site.0 spans.now) }
        ensures err { OnErr result (self.new ≡ self.old) }
    {
        let spans = spans.clone()?;
        self.nights[site.0 as usize] = spans;
        Ok(())
    }

    /// Replaces the sky of a target at a site. `Full` comes where all skies would have too many pieces.
    pub(crate) fn set_sky(&mut self, key: SkyKey, spans: &Spans) -> Result<(), SiteFault>
        requires { length spans.now ≤ most_spans }
        ensures { ChangesOrRefuses (sky_refusal self.old key spans.now) self.old (with_sky self.old key spans.now) self.new result }
    {
        let others = self.pieces - self.sky(key).len();
        if spans.len() > FullOf::Visibility.most() - others {
            return Err(SiteFault::full(FullOf::Visibility));
        }
        let pieces = others + spans.len();
        let spans = spans.clone()?;
        self.skies.insert(key, spans)?;
        self.pieces = pieces;
        Ok(())
    }

    /// Adds seconds to the closures of telescopes, or takes them away. `Full` comes where one of them would have too many
    /// pieces.
    pub(crate) fn change(
        &mut self,
        change: Change,
        telescopes: &[TelescopeNo],
        spans: &Spans,
    ) -> Result<(), SiteFault>
        requires { All (λ t. t.0 < most_telescopes) telescopes.now }
        ensures closures { OnOk result (IsClosureLine change (IsListed telescopes.now) spans.now self.old.closures self.new.closures) }
        ensures rest { self.new ≡ record self.old { closures = self.new.closures } }
        ensures full { IfErr result (λ fault. fault ≢ NoMemory → IsFullClosure change (IsListed telescopes.now) spans.now self.old.closures fault) }
        ensures unchanged { OnErr result (self.new ≡ self.old) }
    {
        let changes = changes_of(
            self.alloc,
            change,
            telescopes,
            spans,
            self.closures.as_slice(),
        )?;
        put(&mut self.closures, changes);
        Ok(())
    }

    /// The seconds of a site's night that a telescope's closures don't have. Fails only for want of memory.
    pub(crate) fn usable(&self, site: SiteNo, telescope: TelescopeNo) -> Result<Spans, AllocError>
        requires site { site.0 < most_sites }
        requires telescope { telescope.0 < most_telescopes }
        ensures usable { IfOk result (IsDifference (set_at self.now.nights site.0) (set_at self.now.closures telescope.0)) }
        ensures few { IfOk result (λ usable. length usable ≤ most_usable) }
        ensures limits { IsWithinLimits self.now }
    {
        let night = &self.nights[site.0 as usize];
        night.minus(self.alloc, &self.closures[telescope.0 as usize])
    }

    /// The sky of a target at a site.
    pub(crate) fn sky(&self, key: SkyKey) -> &Spans
        ensures sky { result.now ≡ sky_of self.now.skies key }
        ensures few { length result.now ≤ most_spans }
        ensures limits { IsWithinLimits self.now }
    {
        match self.skies.get(&key) {
            Some(sky) => sky,
            None => &self.nothing,
        }
    }
}

/// A set without seconds for each of the first numbers. Fails only for want of memory.
fn no_sets(alloc: Global, count: usize) -> Result<Vec<Spans>, AllocError>
    ensures { IfOk result (λ sets. sets.items ≡ replicate count []) }
{
    let mut sets = Vec::with_capacity(alloc, count)?;
    for _ in 0..count {
        sets.push(Spans::empty(alloc))?;
    }
    Ok(sets)
}
