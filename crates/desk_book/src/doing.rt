// What one line does to a state, and what a plan that was found does.

ghost use Rattle.std.specs.Prelude.{◌≡◌, ◌<◌, ◌↔◌, Ok, IfOk, OnErr, IsTrue, IsSome};
ghost use Rattle.plan_base.specs.Limits.{most_version};
ghost use Rattle.plan_base.specs.declared.claim.Claim.{Claim};
ghost use Rattle.plan_base.specs.Solved.{IsOutcome};
ghost use Rattle.desk_events.specs.declared.reply.Reply.TheVariants as reply;
ghost use Rattle.desk_events.specs.Line.{command_of_line};
ghost use Rattle.desk_events.specs.Ranges.{IsCommand};
ghost use Rattle.desk_core.specs.History.{IsPlanning, IsPublication, after_publish};
ghost use Rattle.desk_book.specs.Claims.{IsDeskClaim};
ghost use Rattle.desk_book.specs.Doing.{IsStepDone, IsTakenOf, publish_reply};
ghost use Rattle.desk_book.specs.Kept.{IsBehind};

use desk_core::State;
use desk_events::{Command, CommandFault, Refusal, Reply, read_command};
use plan_base::{Outcome, Taken};
use plan_io::ScriptLine;
use std::alloc::{AllocError, Global};

/// What a line says: its command, or its first fault. Fails only for want of memory.
pub fn read_line(
    alloc: Global,
    line: &ScriptLine,
) -> Result<Result<Command, CommandFault>, AllocError>
    ensures read { IfOk result (λ read. command_of_line line.now ≡ read) }
    ensures ranges { IfOk result (λ read. IfOk read IsCommand) }
{
    match read_command(alloc, line) {
        Ok(command) => Ok(Ok(command)),
        Err(CommandFault::Refused(refusal)) => Ok(Err(CommandFault::Refused(refusal))),
        Err(CommandFault::NoMemory) => Err(AllocError),
    }
}

/// Whether a line asks for a plan.
pub fn is_plan(read: &Result<Command, CommandFault>) -> bool
    ensures { IsTrue result ↔ (read.now ≡ Ok Command.Plan) }
{
    matches!(read, Ok(Command::Plan))
}

/// Does a command that is one step, and says what is replied. Fails only for want of memory, and then changes nothing.
fn apply(state: &mut State, command: &Command) -> Result<Reply, AllocError>
    requires version { state.old.version < most_version }
    requires ranges { IsCommand command.now }
    requires step { ¬ (IsPlanning state.old (Ok command.now)) }
    ensures done { IfOk result (λ reply. IsStepDone state.old (Ok command.now) reply state.new) }
    ensures unchanged { OnErr result (state.new ≡ state.old) }
{
    let reply = state.apply(command)?;
    state.recall_published();
    Ok(reply)
}

/// Does a line that is one step, and says what is replied. Fails only for want of memory, and then changes nothing.
pub fn apply_read(
    state: &mut State,
    read: Result<Command, CommandFault>,
) -> Result<Reply, AllocError>
    requires version { state.old.version < most_version }
    requires ranges { IfOk read IsCommand }
    requires step { ¬ (IsPlanning state.old read) }
    ensures done { IfOk result (λ reply. IsStepDone state.old read reply state.new) }
    ensures unchanged { OnErr result (state.new ≡ state.old) }
{
    match read {
        Ok(command) => apply(state, &command),
        Err(CommandFault::Refused(refusal)) => Ok(Reply::Refused(refusal)),
        Err(CommandFault::NoMemory) => Err(AllocError),
    }
}

/// Takes the snapshot of an opened desk for a caller, with the settings that its plan is sought with. Fails only for
/// want of memory.
pub fn take_for(caller: u8, state: &State) -> Result<Taken, AllocError>
    requires { IsSome state.now.desk }
    ensures named { IfOk result (λ taken. taken.caller ≡ caller) }
    ensures taken { IfOk result (IsTakenOf state.now) }
{
    let Some(settings) = state.settings() else {
        unreachable!();
    };
    let Some(snapshot) = state.snapshot()? else {
        unreachable!();
    };
    Ok(Taken {
        caller,
        settings,
        snapshot,
    })
}

/// Publishes what was found for a Take, where no change was accepted since, and says what is replied. Fails only for want of
/// memory, and then changes nothing.
pub fn publish_found(state: &mut State, taken: Taken, outcome: Outcome) -> Result<Reply, AllocError>
    requires version { state.old.version < most_version }
    requires behind { IsBehind state.old taken }
    requires found { IsOutcome taken.snapshot taken.settings outcome }
    ensures reply { IfOk result (λ r. r ≡ publish_reply state.old record { taken = taken; outcome = outcome }) }
    ensures left { IfOk result (λ r. state.new ≡ after_publish state.old r) }
    ensures publication { IfOk result (λ r. IsPublication state.old taken.snapshot.version r) }
    ensures claims { IfOk result (λ r. (claim : Claim) → r ≡ reply.Published claim → IsDeskClaim state.old claim) }
    ensures unchanged { OnErr result (state.new ≡ state.old) }
{
    let asked = taken.snapshot.parts().version;
    let newer = state.version();
    if newer != asked {
        return Ok(Reply::Refused(Refusal::Stale { asked, newer }));
    }
    match outcome {
        Outcome::Plan(claim) => {
            taken.snapshot.recall_valid();
            state.publish_certified(taken.into_snapshot(), &claim)?;
            Ok(Reply::Published { claim })
        }
        Outcome::TooManyStarts(count) => Ok(Reply::Refused(Refusal::TooManyStarts { count })),
    }
}
