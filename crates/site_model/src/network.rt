// The network of telescopes.

ghost use Rattle.std.specs.Prelude.{◌≡◌, ◌≢◌, ◌<◌, ◌≤◌, ℕ, Some, IfOk, IfErr, OnOk, IfSome, length, slice_get};
ghost use Rattle.std.specs.Option.{option_map, option_copied};
ghost use Rattle.site_model.specs.declared.changes.Change.TheVariants.{Close, Reopen};
ghost use Rattle.site_model.specs.declared.fault.SiteFault.TheVariants.{NoMemory};
ghost use Rattle.plan_base.specs.Limits.{most_telescopes, most_spans};
ghost use Rattle.site_model.specs.Limits.{most_sites, most_targets, most_usable};
ghost use Rattle.site_model.specs.Calls.{ChangesOrRefuses};
ghost use Rattle.site_model.specs.Names.{number_of};
ghost use Rattle.site_model.specs.Registry.{times_of, codes_of, code_number, site_number, fits_at, IsScopeList};
ghost use Rattle.site_model.specs.Registry.{instrument_refusal, telescope_refusal, target_refusal, scope_refusal};
ghost use Rattle.site_model.specs.Calendar.{sky_of, IsWithinLimits};
ghost use Rattle.site_model.specs.Network.{no_network, adds_instrument, adds_telescope, adds_target, forgets_targets};
ghost use Rattle.site_model.specs.Network.{sets_night, sets_visibility, site_refusal, visibility_refusal};
ghost use Rattle.site_model.specs.Network.{ClosesOrRefuses, IsUsable, HaveNoSky};

use crate::calendar::{Calendar, SkyKey};
use crate::changes::Change;
use crate::code::{Code, InstrumentTimes, Scope};
use crate::fault::{FullOf, SiteFault};
use crate::names::{number, places_of};
use crate::telescope::{Telescope, carries, has_names, numbers_at};
use indexmap::{IndexMap, IndexSet};
use interval_set::Spans;
use plan_base::{Name, SiteNo, TargetNo, TelescopeNo};
use std::alloc::{AllocError, Global};
use std::marker::Model;

/// The network: instruments, sites, telescopes and targets, each numbered from 0 in the order in which they are first
/// named, and when telescopes may observe. A refusal, or want of memory, leaves it as before.
pub struct Network {
    instruments: IndexMap<Name, InstrumentTimes>,
    sites: IndexSet<Name>,
    telescopes: IndexMap<Code, Telescope>,
    targets: IndexSet<Name>,
    calendar: Calendar,
    alloc: Global,
}

impl Drop for Network {
    fn drop(self) {
        let Self {
            instruments: _,
            sites: _,
            telescopes: _,
            targets: _,
            calendar: _,
            alloc: _,
        } = self;
    }
}

impl Model for Network {
    ghost use Rattle.site_model.specs.Network.{NetworkSeen};

    ghost Value = { NetworkSeen };

    ghost use Rattle.site_model.specs.NetworkInside.{seen_network, IsNetwork};

    ghost view = { seen_network };

    ghost invariant = { IsNetwork };
}

impl Network {
    /// A network without telescopes. Fails only for want of memory.
    pub fn new(alloc: Global) -> Result<Self, AllocError>
        ensures { IfOk result (λ network. network ≡ no_network) }
    {
        Ok(Network {
            instruments: IndexMap::new(alloc),
            sites: IndexSet::new(alloc),
            telescopes: IndexMap::new(alloc),
            targets: IndexSet::new(alloc),
            calendar: Calendar::new(alloc)?,
            alloc,
        })
    }

    /// Registers an instrument type with its times. `Repeated` comes where it is registered, then `Full` where there are 64.
    pub fn add_instrument(&mut self, name: Name, times: InstrumentTimes) -> Result<(), SiteFault>
        ensures { ChangesOrRefuses (instrument_refusal self.old.registry name) self.old (adds_instrument self.old name times) self.new result }
    {
        if self.instruments.contains_key(&name) {
            return Err(SiteFault::Repeated);
        }
        FullOf::Instruments.check_room(self.instruments.len())?;
        self.instruments.insert(name, times)?;
        Ok(())
    }

    /// Registers a telescope, which gets the next number, as its site does where it is new. `NoSuchInstrument` comes for the
    /// first instrument that isn't registered, then `Repeated` where the code is registered, then `Full` where there are 32
    /// telescopes, or 16 sites and the site is new.
    pub fn add_telescope(
        &mut self,
        code: Code,
        class: Name,
        instruments: &[Name],
    ) -> Result<TelescopeNo, SiteFault>
        ensures added { let more = adds_telescope self.old record { code = code; class = class; instruments = instruments.now } in
            ChangesOrRefuses (telescope_refusal self.old.registry code instruments.now) self.old more self.new result }
        ensures number { IfOk result (λ number. number.0 ≡ length self.old.registry.telescopes) }
    {
        let instruments = places_of(self.alloc, &self.instruments, instruments)?;
        if self.telescopes.contains_key(&code) {
            return Err(SiteFault::Repeated);
        }
        let place = self.telescopes.len();
        FullOf::Telescopes.check_room(place)?;
        self.telescopes.reserve(1)?;
        let site = number(&mut self.sites, self.alloc, &code.site, FullOf::Sites)?;
        let telescope = Telescope {
            site: SiteNo(site as u16),
            class,
            instruments,
        };
        self.telescopes.insert(code, telescope)?;
        Ok(TelescopeNo(place as u16))
    }

    /// Replaces the night of a site by at most 512 spans. `NoSuchSite` comes where no telescope is there.
    pub fn set_night(&mut self, site: &Name, spans: &Spans) -> Result<(), SiteFault>
        requires { length spans.now ≤ most_spans }
        ensures { ChangesOrRefuses (site_refusal self.old.registry site.now) self.old (sets_night self.old site.now spans.now) self.new result }
    {
        let Some(site) = self.find_site(site) else {
            return Err(SiteFault::NoSuchSite);
        };
        self.calendar.set_night(site, spans)?;
        Ok(())
    }

    /// Replaces the sky of a target at a site by at most 512 spans; a new target gets the next number. `NoSuchSite` comes
    /// where no telescope is at the site, then `Full` where there are 2,048 targets and this one is new, or where all skies
    /// together would have more than 262,144 pieces.
    pub fn set_visibility(
        &mut self,
        target: &Name,
        site: &Name,
        spans: &Spans,
    ) -> Result<(), SiteFault>
        requires { length spans.now ≤ most_spans }
        ensures { let more = sets_visibility self.old target.now site.now spans.now in
            ChangesOrRefuses (visibility_refusal self.old target.now site.now spans.now) self.old more self.new result }
    {
        let Some(site) = self.find_site(site) else {
            return Err(SiteFault::NoSuchSite);
        };
        let known = self.targets();
        let target = self.target(target)?;
        if let Err(fault) = self.calendar.set_sky(SkyKey { target, site }, spans) {
            self.forget_targets(known);
            return Err(fault);
        }
        Ok(())
    }

    /// Closes a telescope, or all telescopes that a site has so far, during the spans. `NoSuchTelescope` or `NoSuchSite`
    /// comes where it isn't registered, then `Full` where the closures of one telescope would have more than 512 pieces.
    pub fn close(&mut self, scope: &Scope, spans: &Spans) -> Result<(), SiteFault>
        ensures { ClosesOrRefuses Close scope.now spans.now self.old self.new result }
    {
        self.change(Change::Close, scope, spans)
    }

    /// Takes the spans away from the closures of a telescope, or of all telescopes that a site has so far, with the
    /// refusals of `close`.
    pub fn reopen(&mut self, scope: &Scope, spans: &Spans) -> Result<(), SiteFault>
        ensures { ClosesOrRefuses Reopen scope.now spans.now self.old self.new result }
    {
        self.change(Change::Reopen, scope, spans)
    }

    fn change(&mut self, change: Change, scope: &Scope, spans: &Spans) -> Result<(), SiteFault>
        ensures { ClosesOrRefuses change scope.now spans.now self.old self.new result }
    {
        let telescopes = self.telescopes_in(scope)?;
        self.calendar.change(change, telescopes.as_slice(), spans)
    }

    /// The number of a target, which gets the next one where it is new. `Full` comes where it is new and there are 2,048.
    pub fn target(&mut self, name: &Name) -> Result<TargetNo, SiteFault>
        ensures numbered { ChangesOrRefuses (target_refusal self.old.registry name.now) self.old (adds_target self.old name.now) self.new result }
        ensures number { IfOk result (λ number. number_of self.new.registry.targets name.now ≡ Some number.0) }
    {
        let place = number(&mut self.targets, self.alloc, name, FullOf::Targets)?;
        Ok(TargetNo(place as u16))
    }

    /// Takes away the targets with the numbers `from` and above, none of which has a sky.
    pub fn forget_targets(&mut self, from: u16)
        requires { HaveNoSky from self.old.calendar }
        ensures { self.new ≡ forgets_targets from self.old }
    {
        self.targets.truncate(from as usize);
    }

    /// The seconds in which a telescope, whose number is in range, may observe: the night of its site without its closures.
    /// Fails only for want of memory.
    pub fn usable(&self, telescope: TelescopeNo) -> Result<Spans, AllocError>
        requires { telescope.0 < length self.now.registry.telescopes }
        ensures usable { IfOk result (IsUsable self.now telescope.0) }
        ensures few { IfOk result (λ usable. length usable ≤ most_usable) }
        ensures limits { IsWithinLimits self.now.calendar }
    {
        let site = self.site_of(telescope);
        self.calendar.usable(site, telescope)
    }

    /// The seconds in which a target may be observed from a site, both of whose numbers are in range.
    pub fn visible(&self, target: TargetNo, site: SiteNo) -> &Spans
        requires target { target.0 < length self.now.registry.targets }
        requires site { site.0 < length self.now.registry.sites }
        ensures sky { result.now ≡ sky_of self.now.calendar.skies record { target = target; site = site } }
        ensures few { length result.now ≤ most_spans }
        ensures limits { IsWithinLimits self.now.calendar }
    {
        self.calendar.sky(SkyKey { target, site })
    }

    /// The times of an instrument type, none where it isn't registered.
    pub fn instrument(&self, name: &Name) -> Option<InstrumentTimes>
        ensures { result ≡ times_of self.now.registry name.now }
    {
        self.instruments.get(name).copied()
    }

    /// How many telescopes have a number.
    pub fn telescopes(&self) -> u16
        ensures count { result ≡ length self.now.registry.telescopes }
        ensures few { result ≤ most_telescopes }
    {
        self.telescopes.len() as u16
    }

    /// How many sites have a number.
    pub fn sites(&self) -> u16
        ensures count { result ≡ length self.now.registry.sites }
        ensures few { result ≤ most_sites }
    {
        self.sites.len() as u16
    }

    /// How many targets have a number. No other target has a sky.
    pub fn targets(&self) -> u16
        ensures count { result ≡ length self.now.registry.targets }
        ensures few { result ≤ most_targets }
        ensures unseen { HaveNoSky result self.now.calendar }
    {
        self.targets.len() as u16
    }

    /// The site of a telescope, whose number is in range.
    pub fn site_of(&self, telescope: TelescopeNo) -> SiteNo
        requires { telescope.0 < length self.now.registry.telescopes }
        ensures site { site_number self.now.registry telescope.0 ≡ Some result.0 }
        ensures few_sites { result.0 < most_sites }
        ensures few_telescopes { telescope.0 < most_telescopes }
    {
        self.telescopes[telescope.0 as usize].site
    }

    /// Whether a telescope, whose number is in range, has the class, the site, the enclosure and the code where these are
    /// given, and carries the instrument. The instrument is looked up only where all else fits.
    pub fn fits(
        &self,
        telescope: TelescopeNo,
        class: &Name,
        site: Option<&Name>,
        enclosure: Option<&Name>,
        code: Option<&Name>,
        instrument: &Name,
    ) -> bool
        requires { telescope.0 < length self.now.registry.telescopes }
        ensures { result ≡ fits_at self.now.registry telescope.0 class.now
            (option_copied site.entry) (option_copied enclosure.entry) (option_copied code.entry) instrument.now }
    {
        let Some((names, kept)) = self.telescopes.get_index(telescope.0 as usize) else {
            return false;
        };
        if !has_names(names, kept, class, site, enclosure, code) {
            return false;
        }
        carries(&self.instruments, kept, instrument)
    }

    /// The number of a target, none where it has none.
    pub fn find_target(&self, name: &Name) -> Option<TargetNo>
        ensures { result ≡ option_map (λ n. record { 0 = n }) (number_of self.now.registry.targets name.now) }
    {
        let place = self.targets.get_index_of(name)?;
        Some(TargetNo(place as u16))
    }

    /// The number of a site, none where no telescope is there.
    fn find_site(&self, name: &Name) -> Option<SiteNo>
        ensures number { result ≡ option_map (λ n. record { 0 = n }) (number_of self.now.registry.sites name.now) }
        ensures few { IfSome result (λ site. site.0 < most_sites) }
    {
        let place = self.sites.get_index_of(name)?;
        Some(SiteNo(place as u16))
    }

    /// The number of a telescope, none where no telescope has this code.
    fn find_telescope(&self, code: &Code) -> Option<TelescopeNo>
        ensures number { result ≡ option_map (λ n. record { 0 = n }) (code_number self.now.registry code.now) }
        ensures only { (t : ℕ) → slice_get (codes_of self.now.registry) t ≡ Some code.now → code_number self.now.registry code.now ≡ Some t }
        ensures few { IfSome result (λ telescope. telescope.0 < most_telescopes) }
    {
        let place = self.telescopes.get_index_of(code)?;
        Some(TelescopeNo(place as u16))
    }

    /// The telescopes that a closure or a reopening is about, by rising numbers. `NoSuchTelescope` or `NoSuchSite` comes
    /// where its telescope or its site isn't registered.
    fn telescopes_in(&self, scope: &Scope) -> Result<Vec<TelescopeNo>, SiteFault>
        ensures numbers { IfOk result (λ numbers. IsScopeList self.now.registry scope.now numbers.items) }
        ensures allowed { OnOk result (scope_refusal self.now.registry scope.now ≡ None) }
        ensures refused { IfErr result (λ fault. fault ≢ NoMemory → scope_refusal self.now.registry scope.now ≡ Some fault) }
    {
        match scope {
            Scope::Telescope(code) => {
                let Some(telescope) = self.find_telescope(code) else {
                    return Err(SiteFault::NoSuchTelescope);
                };
                Ok(Vec::from_slice(self.alloc, &[telescope])?)
            }
            Scope::Site(name) => {
                let Some(site) = self.find_site(name) else {
                    return Err(SiteFault::NoSuchSite);
                };
                numbers_at(self.alloc, &self.telescopes, site)
            }
        }
    }
}
