//! How the program ends.

ghost use Rattle.std.specs.Prelude.{◌≡◌};
ghost use Rattle.rh_streams.specs.Finishing.{told_as};
ghost use Rattle.rh_set_program.specs.Endings.{ending, ending_by};

use rh_cli::{ProgramFault, Status};
use rh_commands::{CheckFault, DumpFault};
use rh_endings::status_of_snapshot;
use rh_script::{ScriptFault, ScriptFaultKind};
use rh_script_run::{Cause, Report, RunFault};
use thiserror::Error;

/// Why a run ends early, in the words that the user is told.
#[derive(Debug, Drop, Error)]
pub enum Fault {
    #[error(transparent)]
    Program(#[from] ProgramFault),
    /// The file of the script.
    #[error("read failed")]
    Read,
    #[error(transparent)]
    Dump(#[from] DumpFault),
    #[error(transparent)]
    Check(#[from] CheckFault),
    #[error(transparent)]
    Script(#[from] ScriptFault),
    #[error(transparent)]
    Run(#[from] RunFault),
}

impl Fault {
    /// How a run ends that this ended early.
    pub fn status(&self) -> Status
        ensures { result ≡ ending_by self.now }
    {
        match self {
            Fault::Program(fault) => fault.status(),
            Fault::Read => Status::Refused,
            Fault::Dump(DumpFault::Keys(_) | DumpFault::TooLarge) => Status::Refused,
            Fault::Dump(DumpFault::Memory) => Status::Memory,
            Fault::Dump(DumpFault::Write) => Status::Write,
            Fault::Check(CheckFault::Snap(fault)) => status_of_snapshot(fault),
            Fault::Check(CheckFault::Write) => Status::Write,
            Fault::Script(fault) => match fault.kind {
                ScriptFaultKind::Memory => Status::Memory,
                _ => Status::Refused,
            },
            Fault::Run(fault) => match fault.cause {
                Cause::Memory | Cause::NoThread => Status::Memory,
                Cause::Put | Cause::Write => Status::Write,
                _ => Status::Refused,
            },
        }
    }
}

/// Tells the user as far as standard error takes it, and how the run ends.
pub fn tell(rt: &impl Eprint, fault: &Fault) -> Status
    ensures { result ≡ ending_by fault.now }
{
    let _ = eprintln!(rt; "rhset: {fault}");
    fault.status()
}

/// How the program ends that came to this. A fault is told.
pub fn conclude(rt: &impl Eprint, outcome: &Result<Status, Fault>) -> Status
    ensures { result ≡ ending outcome.now }
{
    match outcome {
        Ok(status) => *status,
        Err(fault) => tell(rt, fault),
    }
}

/// What came of a dump, told as by the program.
pub(crate) fn dumping(outcome: Result<(), DumpFault>) -> Result<(), Fault>
    ensures { result ≡ told_as Fault.Dump outcome }
{
    match outcome {
        Ok(()) => Ok(()),
        Err(fault) => Err(Fault::Dump(fault)),
    }
}

/// The same of a check.
pub(crate) fn checking(outcome: Result<(), CheckFault>) -> Result<(), Fault>
    ensures { result ≡ told_as Fault.Check outcome }
{
    match outcome {
        Ok(()) => Ok(()),
        Err(fault) => Err(Fault::Check(fault)),
    }
}

/// The same of a run.
pub(crate) fn running(outcome: Result<Report, RunFault>) -> Result<(), Fault>
    ensures { result ≡ told_as Fault.Run outcome }
{
    match outcome {
        Ok(_) => Ok(()),
        Err(fault) => Err(Fault::Run(fault)),
    }
}
