//! What a program is given, and what it ends with.
ghost use Rattle.std.specs.Prelude.{◌≡◌, ◌⊎◌, ◌↔◌, IsTrue, IfErr};
ghost use Rattle.std.specs.Process.{exit_status};
ghost use Rattle.plan_io.specs.Exit.{status_number};
ghost use Rattle.plan_io.specs.Words.{IsOneWord};

use crate::status::Status;
use std::env;
use std::io::ErrorKind;
use std::process::ExitCode;
use std::rt::Env;

/// The words after the program's name, or the status where there is no list of them: [`Status::Words`] where one isn't
/// UTF-8, [`Status::NoMemory`] for want of memory.
pub fn program_words<R: Env + AllocGlobal>(rt: &R) -> Result<Vec<String>, Status>
    ensures { IfErr result (λ status. (status ≡ Status.Words) ⊎ (status ≡ Status.NoMemory)) }
{
    let args = match env::args(rt) {
        Ok(args) => args,
        Err(error) => {
            if error.kind() == ErrorKind::OutOfMemory {
                return Err(Status::NoMemory);
            }
            return Err(Status::Words);
        }
    };
    match args.skip(1).collect(rt.alloc()) {
        Ok(words) => Ok(words),
        Err(_) => Err(Status::NoMemory),
    }
}

/// Whether the words are that one word.
pub(crate) fn is_word(words: &[String], word: &str) -> bool
    ensures { IsTrue result ↔ IsOneWord word.now words.now }
{
    match words {
        [only] => only.as_str() == word,
        _ => false,
    }
}

/// How the program ends: with the number of its status.
pub fn exit_code(status: Status) -> ExitCode
    ensures { exit_status result ≡ status_number status }
{
    ExitCode::from(status.number())
}
