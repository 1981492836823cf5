//! What a program does whatever its command is: it reads its words, and answers those that are
//! none.

ghost use Rattle.std.specs.Prelude.{◌≡◌, ◌⊎◌, IfOk, IfErr};
ghost use Rattle.clap.specs.Words.{kind_of};
ghost use Rattle.rh_cli.specs.Endings.{ending_of};

use crate::status::{ProgramFault, Status};
use std::env::{self, Env};
use std::io::ErrorKind;

/// The words of the command line, of which the first is the program's name.
pub fn words(rt: &(impl Env + AllocGlobal)) -> Result<Vec<String>, ProgramFault>
    ensures { IfErr result (λ f. (f ≡ ProgramFault.NotText) ⊎ (f ≡ ProgramFault.Memory)) }
{
    let args = env::args(rt).map_err(|error| match error.kind() {
        ErrorKind::OutOfMemory => ProgramFault::Memory,
        _ => ProgramFault::NotText,
    })?;
    args.collect(rt.alloc()).map_err(|_| ProgramFault::Memory)
}

/// Prints the help or the version that was asked for, or what is wrong with the words.
pub fn answer(rt: &(impl Print + Eprint), error: &clap::Error) -> Result<Status, ProgramFault>
    ensures ok { IfOk result (λ s. s ≡ ending_of (kind_of error.now)) }
    ensures err { IfErr result (λ f. (f ≡ ProgramFault.Write)
        × (ending_of (kind_of error.now) ≡ Status.Done)) }
{
    let printed = error.print(rt);
    if error.use_stderr() {
        return Ok(Status::CommandLine);
    }
    match printed {
        Ok(()) => Ok(Status::Done),
        Err(_) => Err(ProgramFault::Write),
    }
}
