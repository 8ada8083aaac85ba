// The sky of a target at a site.

ghost use Rattle.std.specs.Prelude.{◌↔◌, IsTrue, All, Contains, MatchOption};
ghost use Rattle.plan_base.specs.Skies.{SkiesRise, IsSkyOf, IsCountBelow};

use crate::number::{SiteNo, TargetNo};
use crate::parts::Sky;

/// The sky of the target at the site, of skies in rising order of target, then site; none where there is none. It looks
/// by halves.
pub fn sky_of(skies: &[Sky], target: TargetNo, site: SiteNo) -> Option<&Sky>
    requires { SkiesRise skies.now }
    ensures { MatchOption result
        (All (λ sky. ¬ (IsSkyOf target.0 site.0 sky)) skies.now)
        (λ sky. Contains skies.now sky.now × IsSkyOf target.0 site.0 sky.now) }
{
    let place = count_below(skies, target, site);
    if place >= skies.len() {
        return None;
    }
    if is_sky_of(&skies[place], target, site) {
        Some(&skies[place])
    } else {
        None
    }
}

/// How many skies stand below the one of the target at the site, whether there is one or not.
fn count_below(skies: &[Sky], target: TargetNo, site: SiteNo) -> usize
    requires { SkiesRise skies.now }
    ensures { IsCountBelow skies.now target.0 site.0 result }
{
    skies.partition_point(|sky| {
        sky.target.0 < target.0 || (sky.target.0 == target.0 && sky.site.0 < site.0)
    })
}

fn is_sky_of(sky: &Sky, target: TargetNo, site: SiteNo) -> bool
    ensures { IsTrue result ↔ IsSkyOf target.0 site.0 sky.now }
{
    sky.target.0 == target.0 && sky.site.0 == site.0
}
