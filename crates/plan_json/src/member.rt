// The names of members.

ghost use Rattle.std.specs.Prelude.{◌≡◌};
ghost use Rattle.plan_json.specs.Member.{name_of};

use std::fmt;

/// A member of a document, one for each name that is read in any of them, and for those that an insertion's line adds.
/// [`Member::name`] has the name in the document.
#[derive(Clone, Copy, Debug, PartialEq, Eq)]
pub enum Member {
    /// How much of a request has to be observed for it to be completed: 0 to 100 percent.
    AcceptabilityThreshold,
    /// Which of a proposal's accounts is granted seconds.
    Account,
    /// The moment that time has come to: 0 to 253,402,300,799 seconds.
    At,
    /// What no feasible plan is claimed to be worth more than: 0 to 10^17.
    Bound,
    /// The moments round which a request is to be repeated.
    Cadence,
    /// Whose line it is: 0 to 7.
    Caller,
    /// What an instrument type needs once for each instrument configuration: 0 to 86,400,000 milliseconds.
    ChangeMs,
    /// The nodes below a node of a tree: at most 32.
    Children,
    /// A plan with its value, and prices with the bound that they give.
    Claim,
    /// The class of a telescope that is registered.
    Class,
    /// What an instrument type needs before each configuration: 0 to 86,400,000 milliseconds.
    ConfigMs,
    /// What a request observes, by which instrument type: 1 to 16 of them.
    Configurations,
    /// The numbers of the requests that an insertion takes out of the plan.
    Displaced,
    /// What a line is to do.
    Do,
    /// The dome of a telescope.
    Enclosure,
    /// The moment before which a window or a cadence ends: 0 to 253,402,300,799 seconds.
    End,
    /// How many exposures an instrument configuration has: 1 to 10,000.
    ExposureCount,
    /// How long each exposure is: 1 to 86,400,000 milliseconds.
    ExposureTimeMs,
    /// What a request loses of its value with each slice of delay: 0 to 1,000 thousandths.
    Fade,
    /// The first slice of a snapshot's horizon: 0 to 4,223,371,680.
    First,
    /// The version of a claim's form: 2, where it has quota prices.
    Format,
    /// What an instrument type needs once before a request: 0 to 86,400,000 milliseconds.
    FrontMs,
    /// The group that is submitted; in a snapshot the number of a group, 0 to 4,294,967,295.
    Group,
    /// The number of the group that a line is about: 0 to 4,294,967,295.
    GroupNumber,
    /// The groups of a snapshot.
    Groups,
    /// How many slices a desk plans: 1 to 1,440.
    Horizon,
    /// The exposures of a configuration: 1 to 16 kinds of them.
    InstrumentConfigs,
    /// The instrument type of a configuration or of an account.
    InstrumentType,
    /// The instrument types that a telescope carries: 1 to 16.
    Instruments,
    /// The intra-proposal priority of a group: 500 to 2,000 thousandths.
    IppThousandths,
    /// The intra-proposal priority in the portal's unit, which isn't read; a group with it needs `ipp_thousandths` too.
    IppValue,
    /// How long the window round each moment of a cadence is: 0 to 15,552,000 seconds.
    Jitter,
    /// In how many lanes of rounds a plan is sought: 1 to 8.
    Lanes,
    /// The number of the request that a node of a tree stands for: 0 to 4,294,967,295.
    Leaf,
    /// How long a slice of a snapshot is: 60 to 3,600 seconds.
    Len,
    /// Which telescopes may take a request.
    Location,
    /// What a group or a target is called.
    Name,
    /// The moment at which a desk is opened: 0 to 253,402,300,799 seconds.
    Now,
    /// Which account a group is charged on.
    ObservationType,
    /// How the requests of a group, or the children of a node, belong together.
    Operator,
    /// How much of an observation was made: 0 to 100 percent.
    Percent,
    /// How far the moments of a cadence are apart: 0 to 15,552,000 seconds.
    Period,
    /// The placement that an insertion adds to the plan, if there is one.
    Placed,
    /// The plan of a claim: at most 4,096 placements.
    Placements,
    /// The prices of a claim, one for each request: -10^15 to 10^15.
    Prices,
    /// By what the values of a group's requests are multiplied: 1 to 100.
    Priority,
    /// Whose group or account it is.
    Proposal,
    /// The most seconds of one proposal in a plan, 1 to 100,000,000; in a snapshot the place of a group's quota, 0 to 65,535.
    Quota,
    /// The prices of a second of each quota in a claim: 0 to 10^9.
    QuotaPrices,
    /// The most seconds that a plan of a snapshot may place of the groups of each quota: 0 to 10^12.
    Quotas,
    /// What an instrument type needs after each exposure: 0 to 86,400,000 milliseconds.
    ReadoutMs,
    /// The number of a request: 0 to 4,294,967,295.
    Request,
    /// The requests of a group.
    Requests,
    /// How many rounds a lane has: 1 to 256.
    Rounds,
    /// How many seconds an account is granted, 1 to 1,000,000,000, or a request takes, 1 to 86,400.
    Seconds,
    /// The span that all windows of a desk lie in.
    Semester,
    /// Where a telescope stands: the site's name; in a snapshot its number, 0 to 65,535.
    Site,
    /// When the targets of a snapshot can be observed from its sites.
    Skies,
    /// How long a slice of a desk is: 60 to 3,600 seconds.
    Slice,
    /// How many slices a snapshot's horizon has: 1 to 1,440.
    Slices,
    /// What a desk had to plan at one version.
    Snapshot,
    /// The seconds of a night, of a sky or of a closure.
    Spans,
    /// The moment with which a window or a cadence begins: 0 to 253,402,300,799 seconds.
    Start,
    /// What is observed: its name; in a snapshot its number, 0 to 65,535.
    Target,
    /// The numbers of the targets of a snapshot's request: 0 to 65,535.
    Targets,
    /// The name of a telescope in its dome.
    Telescope,
    /// The class of the telescopes that may take a request.
    TelescopeClass,
    /// The telescopes of a snapshot, or the numbers of those that can take a request, 0 to 65,535.
    Telescopes,
    /// Which requests may be placed together, in place of groups: at most 1,024 trees.
    Trees,
    /// The name of an instrument type that is registered.
    TypeName,
    /// The seconds in which a telescope of a snapshot can observe.
    Usable,
    /// How many seconds an observation took: 0 to 86,400.
    Used,
    /// What a request of a snapshot is worth, 1 to 288,000,000, or is claimed of a plan, 0 to 10^12.
    Value,
    /// How many changes the desk had accepted: 0 to 524,288.
    Version,
    /// The spans inside one of which a request is to be observed: 1 to 32 in a line.
    Windows,
    /// How many threads seek a plan: 1 to 8.
    Workers,
}

impl Member {
    /// The name in the document.
    pub fn name(self) -> &'static str
        ensures { result.now ≡ name_of self }
    {
        match self {
            Member::AcceptabilityThreshold => "acceptability_threshold",
            Member::Account => "account",
            Member::At => "at",
            Member::Bound => "bound",
            Member::Cadence => "cadence",
            Member::Caller => "caller",
            Member::ChangeMs => "change_ms",
            Member::Children => "children",
            Member::Claim => "claim",
            Member::Class => "class",
            Member::ConfigMs => "config_ms",
            Member::Configurations => "configurations",
            Member::Displaced => "displaced",
            Member::Do => "do",
            Member::Enclosure => "enclosure",
            Member::End => "end",
            Member::ExposureCount => "exposure_count",
            Member::ExposureTimeMs => "exposure_time_ms",
            Member::Fade => "fade",
            Member::First => "first",
            Member::Format => "format",
            Member::FrontMs => "front_ms",
            Member::Group => "group",
            Member::GroupNumber => "group_number",
            Member::Groups => "groups",
            Member::Horizon => "horizon",
            Member::InstrumentConfigs => "instrument_configs",
            Member::InstrumentType => "instrument_type",
            Member::Instruments => "instruments",
            Member::IppThousandths => "ipp_thousandths",
            Member::IppValue => "ipp_value",
            Member::Jitter => "jitter",
            Member::Lanes => "lanes",
            Member::Leaf => "leaf",
            Member::Len => "len",
            Member::Location => "location",
            Member::Name => "name",
            Member::Now => "now",
            Member::ObservationType => "observation_type",
            Member::Operator => "operator",
            Member::Percent => "percent",
            Member::Period => "period",
            Member::Placed => "placed",
            Member::Placements => "placements",
            Member::Prices => "prices",
            Member::Priority => "priority",
            Member::Proposal => "proposal",
            Member::Quota => "quota",
            Member::QuotaPrices => "quota_prices",
            Member::Quotas => "quotas",
            Member::ReadoutMs => "readout_ms",
            Member::Request => "request",
            Member::Requests => "requests",
            Member::Rounds => "rounds",
            Member::Seconds => "seconds",
            Member::Semester => "semester",
            Member::Site => "site",
            Member::Skies => "skies",
            Member::Slice => "slice",
            Member::Slices => "slices",
            Member::Snapshot => "snapshot",
            Member::Spans => "spans",
            Member::Start => "start",
            Member::Target => "target",
            Member::Targets => "targets",
            Member::Telescope => "telescope",
            Member::TelescopeClass => "telescope_class",
            Member::Telescopes => "telescopes",
            Member::Trees => "trees",
            Member::TypeName => "type",
            Member::Usable => "usable",
            Member::Used => "used",
            Member::Value => "value",
            Member::Version => "version",
            Member::Windows => "windows",
            Member::Workers => "workers",
        }
    }
}

impl fmt::Display for Member {
    ghost use Rattle.std.specs.Prelude.{Some};
    ghost use Rattle.plan_json.specs.Member.{name_of};

    ghost output = { λ member. Some (name_of member) };

    fn fmt<W: fmt::Write>(&self, f: &mut fmt::Formatter<W>) -> fmt::Result {
        f.write_str(self.name())
    }
}
