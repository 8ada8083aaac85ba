// The classes of telescopes.

ghost use Rattle.std.specs.Prelude.{◌≡◌};
ghost use Rattle.workload.specs.Requests.{class_drawn};

/// A class of telescopes.
#[derive(Clone, Copy)]
pub(crate) enum Class {
    OneMetre,
    FortyCentimetres,
}

impl Class {
    /// The class that a draw names.
    pub(crate) fn drawn(draw: u32) -> Class
        ensures { result ≡ class_drawn draw }
    {
        if draw == 0 {
            Class::OneMetre
        } else {
            Class::FortyCentimetres
        }
    }
}
