// The words of commands.

ghost use Rattle.std.specs.Prelude.{◌≡◌};
ghost use Rattle.plan_json.specs.Shown.{members_of};
ghost use Rattle.desk_events.specs.Line.{verb_named, verb_of};

use crate::fault::CommandFault;
use crate::refusal::Refusal;
use plan_json::{Doc, Member};

/// Which command a line is.
#[derive(Clone, Copy)]
pub(crate) enum Verb {
    Open,
    Instrument,
    Telescope,
    Night,
    Visibility,
    Close,
    Reopen,
    Grant,
    Submit,
    Amend,
    Withdraw,
    Clock,
    Report,
    Plan,
    Publish,
    Export,
    Balances,
    Show,
}

fn verb_named(word: &str) -> Option<Verb>
    ensures { result ≡ verb_named word.now }
{
    match word {
        "open" => Some(Verb::Open),
        "instrument" => Some(Verb::Instrument),
        "telescope" => Some(Verb::Telescope),
        "night" => Some(Verb::Night),
        "visibility" => Some(Verb::Visibility),
        "close" => Some(Verb::Close),
        "reopen" => Some(Verb::Reopen),
        "grant" => Some(Verb::Grant),
        "submit" => Some(Verb::Submit),
        "amend" => Some(Verb::Amend),
        "withdraw" => Some(Verb::Withdraw),
        "clock" => Some(Verb::Clock),
        "report" => Some(Verb::Report),
        "plan" => Some(Verb::Plan),
        "publish" => Some(Verb::Publish),
        "export" => Some(Verb::Export),
        "balances" => Some(Verb::Balances),
        "show" => Some(Verb::Show),
        _ => None,
    }
}

/// The command that the member `do` names.
pub(crate) fn read_verb(doc: &Doc) -> Result<Verb, CommandFault>
    ensures { result ≡ verb_of (members_of doc.now) }
{
    let word = doc.word(Member::Do)?;
    verb_named(word).ok_or(CommandFault::Refused(Refusal::UnknownCommand))
}
