// The commands that open the desk, move its clock and report to it.

ghost use Rattle.std.specs.Prelude.{◌≡◌};
ghost use Rattle.plan_base.specs.Limits.{most_quota};
ghost use Rattle.plan_json.specs.Object.{if_there};
ghost use Rattle.plan_json.specs.Shown.{members_of};
ghost use Rattle.plan_json.specs.Whole.{number_in};
ghost use Rattle.plan_json.specs.declared.member.Member.TheVariants.{Quota};
ghost use Rattle.desk_events.specs.Commands.{open_of, clock_of, report_of};

use crate::command::Command;
use plan_base::{
    LEAST_LEN, MOST_LANES, MOST_LEN, MOST_PERCENT, MOST_QUOTA, MOST_ROUNDS, MOST_SECONDS,
    MOST_SLICES, MOST_WORKERS, RequestNo,
};
use plan_json::{Doc, JsonFault, Member};

/// The most seconds of one proposal in a plan, where it is given.
fn read_quota(doc: &Doc) -> Result<Option<u64>, JsonFault>
    ensures { result ≡ if_there (number_in 1 most_quota) (members_of doc.now) Quota }
{
    let seconds = doc.optional_number(Member::Quota, 1, MOST_QUOTA as u32)?;
    Ok(seconds.map(u64::from))
}

/// An `open` line.
pub(crate) fn read_open(doc: &Doc) -> Result<Command, JsonFault>
    ensures { result ≡ open_of (members_of doc.now) }
{
    let now = doc.moment(Member::Now)?;
    let slice = doc.number(Member::Slice, LEAST_LEN, MOST_LEN)?;
    let horizon = doc.number(Member::Horizon, 1, MOST_SLICES)?;
    let semester = doc.span(Member::Semester)?;
    let lanes = doc.number(Member::Lanes, 1, MOST_LANES)?;
    let rounds = doc.number(Member::Rounds, 1, MOST_ROUNDS)?;
    let workers = doc.number(Member::Workers, 1, MOST_WORKERS)?;
    let quota = read_quota(doc)?;
    Ok(Command::Open {
        now,
        slice,
        horizon,
        semester,
        lanes,
        rounds,
        workers,
        quota,
    })
}

/// A `clock` line.
pub(crate) fn read_clock(doc: &Doc) -> Result<Command, JsonFault>
    ensures { result ≡ clock_of (members_of doc.now) }
{
    let at = doc.moment(Member::At)?;
    Ok(Command::Clock { at })
}

/// A `report` line.
pub(crate) fn read_report(doc: &Doc) -> Result<Command, JsonFault>
    ensures { result ≡ report_of (members_of doc.now) }
{
    let request = doc.number(Member::Request, 0, u32::MAX)?;
    let percent = doc.number(Member::Percent, 0, MOST_PERCENT)?;
    let used = doc.number(Member::Used, 0, MOST_SECONDS)?;
    Ok(Command::Report {
        request: RequestNo(request),
        percent: percent as u8,
        used: u64::from(used),
    })
}
