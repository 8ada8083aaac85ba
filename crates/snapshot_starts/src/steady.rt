// What two snapshots have in common that starts depend on.

ghost use Rattle.std.specs.Prelude.{◌≡◌, [], IsTrue, IfOk, All, Contains};
ghost use Rattle.std.specs.declared.cmp.Ordering.{Ordering};
ghost use Rattle.plan_base.specs.Snapshot.{IsOrderly};
ghost use Rattle.snapshot_starts.specs.Mending.{AreSteady, IsSteadyRequest, IsSteadyTelescope, IsSteadySky, IsAskedAlike, IsSeenAlike, AreShared, sky_key};

use crate::shared::{is_same_within, shared_times};
use crate::telescope::telescope_at;
use plan_base::{
    Parts, RequestNo, RequestPart, SiteNo, Sky, Snapshot, Span, TargetNo, TelescopeNo, sky_of,
};
use std::alloc::{AllocError, Global};

/// A target and a site.
#[derive(Clone, Copy, PartialEq, Eq, PartialOrd, Ord)]
pub(crate) struct SkyKey {
    /// The number of the target.
    pub target: TargetNo,
    /// The number of the site.
    pub site: SiteNo,
}

/// The requests, telescopes and skies that are the same in two snapshots at all times that lie in both horizons, each in
/// rising order.
pub(crate) struct Steady {
    requests: Vec<RequestNo>,
    telescopes: Vec<TelescopeNo>,
    skies: Vec<SkyKey>,
}

impl Drop for Steady {
    fn drop(self) {
        let Self {
            requests: _,
            telescopes: _,
            skies: _,
        } = self;
    }
}

impl Steady {
    /// Nothing that is known to be the same. It takes no memory.
    pub(crate) fn nothing(alloc: Global) -> Steady
        ensures requests { result.requests.items ≡ [] }
        ensures telescopes { result.telescopes.items ≡ [] }
        ensures skies { result.skies.items ≡ [] }
    {
        Steady {
            requests: Vec::new(alloc),
            telescopes: Vec::new(alloc),
            skies: Vec::new(alloc),
        }
    }

    /// What is the same in both snapshots; nothing where their slices aren't as long. Fails only for want of memory.
    pub(crate) fn between(
        alloc: Global,
        was: &Snapshot,
        snapshot: &Snapshot,
    ) -> Result<Steady, AllocError>
        ensures { IfOk result (AreSteady was.now snapshot.now) }
    {
        let (earlier, parts) = (was.parts(), snapshot.parts());
        if earlier.len != parts.len {
            return Ok(Steady::nothing(alloc));
        }
        let times = shared_times(earlier, parts);
        Ok(Steady {
            requests: steady_requests(alloc, was, snapshot)?,
            telescopes: steady_telescopes(alloc, earlier, parts, times)?,
            skies: steady_skies(alloc, earlier, parts, times)?,
        })
    }

    /// Whether the request, the telescope and the skies of all targets of the request at the site are known to be the same.
    pub(crate) fn has_pair(
        &self,
        request: &RequestPart,
        telescope: TelescopeNo,
        site: SiteNo,
    ) -> bool
        ensures request { IsTrue result → Contains self.now.requests.items request.now.request }
        ensures telescope { IsTrue result → Contains self.now.telescopes.items telescope }
        ensures skies { IsTrue result → All (λ target. Contains self.now.skies.items (sky_key target site)) request.now.targets }
    {
        if !has(self.requests.as_slice(), request.request) {
            return false;
        }
        if !has(self.telescopes.as_slice(), telescope) {
            return false;
        }
        self.has_skies(request.targets.as_slice(), site)
    }

    fn has_skies(&self, targets: &[TargetNo], site: SiteNo) -> bool
        ensures { IsTrue result → All (λ target. Contains self.now.skies.items (sky_key target site)) targets.now }
    {
        let skies = self.skies.as_slice();
        for target in targets {
            let target = *target;
            if !has(skies, SkyKey { target, site }) {
                return false;
            }
        }
        true
    }
}

/// Whether the item is one of the list, which rises. It looks by halves.
fn has<T: Copy + Ord>(list: &[T], item: T) -> bool
    requires { (a b : T) → T.cmp a b ≡ Ordering.Equal → a ≡ b }
    ensures { IsTrue result → Contains list.now item }
{
    list.binary_search(&item).is_ok()
}

/// The requests that both snapshots ask for alike.
fn steady_requests(
    alloc: Global,
    was: &Snapshot,
    snapshot: &Snapshot,
) -> Result<Vec<RequestNo>, AllocError>
    requires orderly { IsOrderly snapshot.now }
    requires len { was.now.len ≡ snapshot.now.len }
    ensures { IfOk result (λ steady. All (λ r. IsSteadyRequest was.now snapshot.now r.0) steady.items) }
{
    let mut steady = Vec::new(alloc);
    for place in 0..snapshot.request_count() {
        let request = snapshot.request_at(place);
        if is_asked_alike(was, request) {
            steady.push(request.request)?;
        }
    }
    Ok(steady)
}

/// Whether the snapshot has the request, with the same times, telescopes and targets.
fn is_asked_alike(was: &Snapshot, request: &RequestPart) -> bool
    ensures { IsTrue result → IsAskedAlike was.now request.now }
{
    let Some(place) = was.place_of(request.request) else {
        return false;
    };
    let earlier = was.request_at(place);
    if earlier.seconds != request.seconds {
        return false;
    }
    earlier.windows == request.windows
        && earlier.telescopes == request.telescopes
        && earlier.targets == request.targets
}

/// The telescopes that stand where they stood, and can observe when they could.
fn steady_telescopes(
    alloc: Global,
    was: &Parts,
    parts: &Parts,
    times: Span,
) -> Result<Vec<TelescopeNo>, AllocError>
    requires orderly { IsOrderly parts.now }
    requires times { AreShared was.now parts.now times }
    ensures { IfOk result (λ steady. All (λ t. IsSteadyTelescope was.now parts.now t.0) steady.items) }
{
    let mut steady = Vec::new(alloc);
    for number in 0..parts.telescopes.len() {
        let telescope = TelescopeNo(number as u16);
        if is_open_alike(alloc, was, parts, telescope, times)? {
            steady.push(telescope)?;
        }
    }
    Ok(steady)
}

/// Whether the telescope is known to stand where it stood, and to be able to observe when it could.
fn is_open_alike(
    alloc: Global,
    was: &Parts,
    parts: &Parts,
    telescope: TelescopeNo,
    times: Span,
) -> Result<bool, AllocError>
    requires { AreShared was.now parts.now times }
    ensures { IfOk result (λ alike. IsTrue alike → IsSteadyTelescope was.now parts.now telescope.0) }
{
    let (Some(earlier), Some(part)) = (telescope_at(was, telescope), telescope_at(parts, telescope))
    else {
        return Ok(false);
    };
    if earlier.site.0 != part.site.0 {
        return Ok(false);
    }
    is_same_within(
        alloc,
        earlier.usable.as_slice(),
        part.usable.as_slice(),
        times,
    )
}

/// The targets and sites from which they are visible when they were.
fn steady_skies(
    alloc: Global,
    was: &Parts,
    parts: &Parts,
    times: Span,
) -> Result<Vec<SkyKey>, AllocError>
    requires orderly { IsOrderly parts.now }
    requires earlier { IsOrderly was.now }
    requires times { AreShared was.now parts.now times }
    ensures { IfOk result (λ steady. All (IsSteadySky was.now parts.now) steady.items) }
{
    let mut steady = Vec::new(alloc);
    for sky in parts.skies.as_slice() {
        if is_seen_alike(alloc, was, sky, times)? {
            steady.push(SkyKey {
                target: sky.target,
                site: sky.site,
            })?;
        }
    }
    Ok(steady)
}

/// Whether the target is known to be visible from the site when it was.
fn is_seen_alike(alloc: Global, was: &Parts, sky: &Sky, times: Span) -> Result<bool, AllocError>
    requires { IsOrderly was.now }
    ensures { IfOk result (λ alike. IsTrue alike → IsSeenAlike was.now sky.now times) }
{
    match sky_of(was.skies.as_slice(), sky.target, sky.site) {
        Some(earlier) => {
            is_same_within(alloc, earlier.spans.as_slice(), sky.spans.as_slice(), times)
        }
        None => Ok(false),
    }
}
