// The faults of the parts, as the desk's refusals.

ghost use Rattle.std.specs.Prelude.{◌≡◌};
ghost use Rattle.desk_events.specs.declared.fault.CommandFault.TheVariants.{Refused};
ghost use Rattle.desk_events.specs.declared.refusal.Refusal.TheVariants.{Rejected};
ghost use Rattle.desk_events.specs.Fault.{of_member, of_group, of_times, of_network, of_accounts, full_of_site, full_of_ledger};

use crate::fault::CommandFault;
use crate::refusal::{FullOf, Refusal};
use allocations::LedgerFault;
use plan_base::Reason;
use plan_json::JsonFault;
use request_model::{GroupFault, TimeFault};
use site_model::SiteFault;

impl From<JsonFault> for CommandFault {
    ghost from_gives = { λ member fault. fault ≡ of_member member };

    fn from(fault: JsonFault) -> CommandFault {
        CommandFault::Refused(match fault {
            JsonFault::NotJson => Refusal::NotJson,
            JsonFault::NotObject => Refusal::NotObject,
            JsonFault::Missing { member } => Refusal::Missing { member },
            JsonFault::WrongKind { member } => Refusal::WrongKind { member },
            JsonFault::NotWhole { member } => Refusal::NotWhole { member },
            JsonFault::OutOfRange { member } => Refusal::OutOfRange { member },
            JsonFault::BadMoment { member } => Refusal::BadMoment { member },
            JsonFault::NoMemory => return CommandFault::NoMemory,
        })
    }
}

impl From<GroupFault> for CommandFault {
    ghost from_gives = { λ group fault. fault ≡ of_group group };

    fn from(fault: GroupFault) -> CommandFault {
        CommandFault::Refused(match fault {
            GroupFault::Json(member) => return CommandFault::from(member),
            GroupFault::BadShape { operator, count } => Refusal::BadShape {
                count: u64::from(count),
                operator,
            },
            GroupFault::BadWindow { index, window } => Refusal::BadWindow { index, window },
            GroupFault::MixedInstruments { index } => Refusal::MixedInstruments { index },
            GroupFault::NoMemory => return CommandFault::NoMemory,
        })
    }
}

/// A fault in the times of the request at that place.
impl From<(u32, TimeFault)> for CommandFault {
    ghost from_gives = { λ at fault. fault ≡ of_times at.0 at.1 };

    fn from(at: (u32, TimeFault)) -> CommandFault {
        let (index, times) = at;
        CommandFault::Refused(match times {
            TimeFault::TooLong { seconds } => Refusal::TooLong { index, seconds },
            TimeFault::BadCadence => Refusal::BadCadence { index },
            TimeFault::TooManyWindows { count } => Refusal::TooManyWindows { count, index },
            TimeFault::NoMemory => return CommandFault::NoMemory,
        })
    }
}

impl From<site_model::FullOf> for FullOf {
    ghost from_gives = { λ what full. full ≡ full_of_site what };

    fn from(what: site_model::FullOf) -> FullOf {
        match what {
            site_model::FullOf::Instruments => FullOf::Instruments,
            site_model::FullOf::Telescopes => FullOf::Telescopes,
            site_model::FullOf::Sites => FullOf::Sites,
            site_model::FullOf::Targets => FullOf::Targets,
            site_model::FullOf::Visibility => FullOf::Visibility,
            site_model::FullOf::Closures => FullOf::Closures,
        }
    }
}

impl From<SiteFault> for CommandFault {
    ghost from_gives = { λ network fault. fault ≡ of_network network };

    fn from(fault: SiteFault) -> CommandFault {
        CommandFault::Refused(match fault {
            SiteFault::NoSuchTelescope => Refusal::NoSuchTelescope,
            SiteFault::NoSuchSite => Refusal::NoSuchSite,
            SiteFault::Repeated => Refusal::Repeated,
            SiteFault::Full { limit, what } => Refusal::Full {
                limit,
                what: FullOf::from(what),
            },
            SiteFault::NoSuchInstrument { index } => Refusal::NoSuchInstrument { index },
            SiteFault::NoMemory => return CommandFault::NoMemory,
        })
    }
}

impl From<allocations::FullOf> for FullOf {
    ghost from_gives = { λ what full. full ≡ full_of_ledger what };

    fn from(what: allocations::FullOf) -> FullOf {
        match what {
            allocations::FullOf::Accounts => FullOf::Accounts,
        }
    }
}

impl From<LedgerFault> for CommandFault {
    ghost from_gives = { λ accounts fault. fault ≡ of_accounts accounts };

    fn from(fault: LedgerFault) -> CommandFault {
        CommandFault::Refused(match fault {
            LedgerFault::Full { limit, what } => Refusal::Full {
                limit,
                what: FullOf::from(what),
            },
            LedgerFault::NoSuchProposal => Refusal::NoSuchProposal,
            LedgerFault::NoSuchAllocation { account } => Refusal::NoSuchAllocation { account },
            LedgerFault::NotEnoughTime { needed, available } => {
                Refusal::NotEnoughTime { available, needed }
            }
            LedgerFault::NoMemory => return CommandFault::NoMemory,
        })
    }
}

/// The claim isn't certified.
impl From<Reason> for CommandFault {
    ghost from_gives = { λ reason fault. fault ≡ Refused (Rejected reason) };

    fn from(reason: Reason) -> CommandFault {
        CommandFault::Refused(Refusal::Rejected { reason })
    }
}
