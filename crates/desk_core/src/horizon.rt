// The horizon of a desk, and what telescopes and targets have of it.

ghost use Rattle.std.specs.Prelude.{◌≡◌, ◌==◌, ℕ, ◌<◌, ◌++◌, Some, IfOk, OnOk, All, slice_get, length, map, filter};
ghost use Rattle.std.specs.List.{flat_map};
ghost use Rattle.interval_set.specs.Spans.{has, IsSetOf};
ghost use Rattle.site_model.specs.Calendar.{IsWithinLimits};
ghost use Rattle.site_model.specs.Registry.{TelescopeSeen, site_number};
ghost use Rattle.desk_core.specs.Desk.{seen};
ghost use Rattle.desk_core.specs.Kept.{IsDesk};
ghost use Rattle.desk_core.specs.DeskSnapshot.{first_slice, horizon_span, IsHorizonSet, in_horizon, observation_span, observed_on};
ghost use Rattle.desk_core.specs.DeskSnapshot.{is_usable, telescope_part, telescope_parts, sky_part, skies_at};

use crate::desk::Desk;
use desk_runs::Observation;
use interval_set::Spans;
use plan_base::{
    ListOf, Sec, SiteNo, Sky, SliceNo, Span, TargetNo, TelescopeNo, TelescopePart, slices_for,
};
use std::alloc::{AllocError, Global};

impl Desk {
    /// The first slice that doesn't begin before now.
    pub(crate) fn first_slice(&self) -> SliceNo
        requires { IsDesk (seen self.now) }
        ensures { result.0 ≡ first_slice (seen self.now) }
    {
        SliceNo(slices_for(u64::from(self.opening.slice), self.runs.now().0) as u32)
    }

    /// The span of the horizon.
    fn horizon_span(&self) -> Span
        requires { IsDesk (seen self.now) }
        ensures { result ≡ horizon_span (seen self.now) }
    {
        let len = u64::from(self.opening.slice);
        let first = u64::from(self.first_slice().0);
        let end = first + u64::from(self.opening.horizon);
        Span {
            from: Sec(first * len),
            to: Sec(end * len),
        }
    }

    /// The seconds of the horizon. Fails only for want of memory.
    pub(crate) fn horizon(&self, alloc: Global) -> Result<Spans, AllocError>
        requires { IsDesk (seen self.now) }
        ensures { IfOk result (IsHorizonSet (seen self.now)) }
    {
        Spans::from_list(alloc, &[self.horizon_span()])
    }

    /// The seconds of the observations that run on a telescope.
    fn observed_on(&self, alloc: Global, telescope: TelescopeNo) -> Result<Spans, AllocError>
        requires { IsDesk (seen self.now) }
        ensures { IfOk result (IsSetOf (has (observed_on (seen self.now) telescope.0))) }
    {
        let running = self.runs.running();
        let spans = spans_on(alloc, running, self.opening.slice, telescope)?;
        Spans::from_list(alloc, spans.as_slice())
    }

    /// The seconds of the horizon in which a telescope may observe and nothing runs on it.
    fn usable(
        &self,
        alloc: Global,
        horizon: &Spans,
        telescope: TelescopeNo,
    ) -> Result<Spans, AllocError>
        requires desk { IsDesk (seen self.now) }
        requires horizon { IsHorizonSet (seen self.now) horizon.now }
        requires telescope { telescope.0 < length self.now.network.registry.telescopes }
        ensures usable { IfOk result (λ usable. (site : ℕ) → site_number self.now.network.registry telescope.0 ≡ Some site
            → usable ≡ in_horizon (seen self.now) (is_usable (seen self.now) site telescope.0)) }
        ensures limits { OnOk result (IsWithinLimits self.now.network.calendar) }
    {
        let usable = self.network.usable(telescope)?;
        let observed = self.observed_on(alloc, telescope)?;
        let free = usable.minus(alloc, &observed)?;
        free.meet(alloc, horizon)
    }

    /// The part of a telescope.
    fn telescope_part(
        &self,
        alloc: Global,
        horizon: &Spans,
        telescope: TelescopeNo,
    ) -> Result<TelescopePart, AllocError>
        requires desk { IsDesk (seen self.now) }
        requires horizon { IsHorizonSet (seen self.now) horizon.now }
        requires telescope { telescope.0 < length self.now.network.registry.telescopes }
        ensures part { IfOk result (λ part. (t : TelescopeSeen) → slice_get self.now.network.registry.telescopes telescope.0 ≡ Some t
            → part ≡ telescope_part (seen self.now) (telescope.0, t)) }
        ensures limits { OnOk result (IsWithinLimits self.now.network.calendar) }
    {
        let usable = self.usable(alloc, horizon, telescope)?;
        Ok(TelescopePart {
            site: self.network.site_of(telescope),
            usable: usable.into_list(),
        })
    }

    /// The parts of the telescopes, by number. Fails only for want of memory.
    pub(crate) fn telescope_parts(
        &self,
        alloc: Global,
        horizon: &Spans,
    ) -> Result<ListOf<TelescopePart>, AllocError>
        requires desk { IsDesk (seen self.now) }
        requires horizon { IsHorizonSet (seen self.now) horizon.now }
        ensures parts { IfOk result (λ parts. parts ≡ telescope_parts (seen self.now)) }
        ensures limits { OnOk result (0 < length self.now.network.registry.telescopes → IsWithinLimits self.now.network.calendar) }
    {
        let mut parts = ListOf::new(alloc);
        for telescope in 0..self.network.telescopes() {
            parts.push(self.telescope_part(alloc, horizon, TelescopeNo(telescope))?)?;
        }
        Ok(parts)
    }

    /// The sky of a target at a site inside the horizon, none where it has no second there.
    fn sky_part(
        &self,
        alloc: Global,
        horizon: &Spans,
        target: TargetNo,
        site: SiteNo,
    ) -> Result<Option<Sky>, AllocError>
        requires horizon { IsHorizonSet (seen self.now) horizon.now }
        requires target { target.0 < length self.now.network.registry.targets }
        requires site { site.0 < length self.now.network.registry.sites }
        ensures { IfOk result (λ sky. sky ≡ sky_part (seen self.now) target.0 site.0) }
    {
        let spans = self.network.visible(target, site).meet(alloc, horizon)?;
        if spans.is_empty() {
            return Ok(None);
        }
        Ok(Some(Sky {
            target,
            site,
            spans: spans.into_list(),
        }))
    }

    /// Adds the skies of a target, by site.
    fn add_skies(
        &self,
        alloc: Global,
        horizon: &Spans,
        target: TargetNo,
        skies: &mut ListOf<Sky>,
    ) -> Result<(), AllocError>
        requires horizon { IsHorizonSet (seen self.now) horizon.now }
        requires target { target.0 < length self.now.network.registry.targets }
        ensures { OnOk result (skies.new ≡ skies.old ++ skies_at (seen self.now) target.0) }
    {
        for site in 0..self.network.sites() {
            if let Some(sky) = self.sky_part(alloc, horizon, target, SiteNo(site))? {
                skies.push(sky)?;
            }
        }
        Ok(())
    }

    /// The skies of targets, by their numbers, then by site. Fails only for want of memory.
    pub(crate) fn skies(
        &self,
        alloc: Global,
        horizon: &Spans,
        targets: &[TargetNo],
    ) -> Result<ListOf<Sky>, AllocError>
        requires horizon { IsHorizonSet (seen self.now) horizon.now }
        requires targets { All (λ t. t.0 < length self.now.network.registry.targets) targets.now }
        ensures { IfOk result (λ skies. skies ≡ flat_map (λ t. skies_at (seen self.now) t.0) targets.now) }
    {
        let mut skies = ListOf::new(alloc);
        for target in targets {
            self.add_skies(alloc, horizon, *target, &mut skies)?;
        }
        Ok(skies)
    }
}

/// The span of an observation.
fn span_of(observation: &Observation, len: u32) -> Span
    ensures { result ≡ observation_span len observation.now }
{
    Span {
        from: Sec(observation.start(len)),
        to: Sec(observation.end(len)),
    }
}

/// The spans of the observations of a telescope.
fn spans_on(
    alloc: Global,
    observations: &[Observation],
    len: u32,
    telescope: TelescopeNo,
) -> Result<Vec<Span>, AllocError>
    ensures { IfOk result (λ spans. spans.items ≡ map (observation_span len) (filter (λ o. o.telescope.0 == telescope.0) observations.now)) }
{
    observations
        .iter()
        .filter(|o| o.telescope.0 == telescope.0)
        .map(|o| span_of(o, len))
        .collect(alloc)
}
