// Which telescopes fit a request.

ghost use Rattle.std.specs.Prelude.{◌≡◌, ◌<◌, Some, length, slice_get};
ghost use Rattle.site_model.specs.Registry.{TelescopeSeen};
ghost use Rattle.desk_core.specs.Asking.{is_fit};

use plan_base::{Name, TelescopeNo};
use request_model::Location;
use site_model::Network;

/// Whether a telescope fits a request for this location and instrument type.
pub(crate) fn fits(
    network: &Network,
    telescope: TelescopeNo,
    location: &Location,
    instrument: &Name,
) -> bool
    requires { telescope.0 < length network.now.registry.telescopes }
    ensures { (t : TelescopeSeen) → slice_get network.now.registry.telescopes telescope.0 ≡ Some t → result ≡ is_fit location.now instrument.now t }
{
    network.fits(
        telescope,
        &location.class,
        location.site.as_ref(),
        location.enclosure.as_ref(),
        location.telescope.as_ref(),
        instrument,
    )
}
