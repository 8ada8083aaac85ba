// Laws of histories, each the contract of a function that does nothing.

ghost use Rattle.desk_calendar.specs.Laws.{ClosuresAreTold, NightsAreOfSites, NightsAreTold, NumbersAreTold, SitesAreTold};
ghost use Rattle.desk_calendar.specs.Laws.{SkiesAreOfTargets, SkiesAreTold, TelescopesAreTold, UsableByNumber, UsableSecondsAreTold};

/// A law: after every legal history the telescopes of the desk are those of its accepted `telescope` lines, in their order, and
/// the number that such a line is replied is how many were accepted before it.
pub fn telescopes_are_told()
    ensures telescopes { TelescopesAreTold }
    ensures numbers { NumbersAreTold }
{}

/// A law: after every legal history a second of a telescope is closed exactly where the latest accepted `close` or `reopen` line
/// that is about it is a `close`.
pub fn closures_are_told()
    ensures { ClosuresAreTold }
{}

/// A law: after every legal history the sites of the desk are those of its telescopes, each once, as they first came; the latest
/// accepted `night` line of a site has a second exactly where the desk's night of the site has it; and nothing else has a night.
pub fn nights_are_told()
    ensures sites { SitesAreTold }
    ensures nights { NightsAreTold }
    ensures others { NightsAreOfSites }
{}

/// A law: after every legal history the latest accepted `visibility` line of a target at a site has a second exactly where the
/// desk's sky of the target at the site has it, by the numbers that the desk gives both; no numbers but those of targets and sites
/// have a sky.
pub fn skies_are_told()
    ensures skies { SkiesAreTold }
    ensures others { SkiesAreOfTargets }
{}

/// A law: after every legal history a second is usable on a telescope exactly where the latest accepted `night` line of its site,
/// which its `telescope` line tells, has it, the latest accepted line that is about it, if there is one, is a `reopen`, and no
/// observation runs there. The same is so for any site's number, by the desk's night of that number.
pub fn usable_seconds_are_told()
    ensures told { UsableSecondsAreTold }
    ensures by_number { UsableByNumber }
{}
