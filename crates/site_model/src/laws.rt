// What holds of all lines about closures, and of skies; these functions do nothing.

ghost use Rattle.site_model.specs.Calendar.{SkiesAreCounted};
ghost use Rattle.site_model.specs.Latest.{LatestDecides, UsableByLatest, ScopeIsList};

/// A second of a telescope is closed where the latest accepted line that is about it is a closure, and not a reopening; it
/// is usable where the night has it and it isn't closed. A line is about the seconds of its spans on the telescopes in its
/// scope.
pub fn latest_line_decides()
    ensures closed { LatestDecides }
    ensures usable { UsableByLatest }
    ensures scope { ScopeIsList }
{}

/// The skies of different targets and sites have at most the pieces of all skies together.
pub fn skies_are_counted()
    ensures { SkiesAreCounted }
{}
