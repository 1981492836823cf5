//! How a program ends.

ghost use Rattle.std.specs.Prelude.{◌≡◌};
ghost use Rattle.rh_cli.specs.Endings.{ending_by_program, number_of};

use std::process::ExitCode;
use thiserror::Error;

/// How a run ends, with its exit status.
#[derive(Clone, Copy)]
pub enum Status {
    Done = 0,
    Refused = 1,
    CommandLine = 2,
    Memory = 3,
    Write = 4,
    /// Nobody reads any more what is written: as a shell tells it of a program that the signal
    /// `SIGPIPE` ended.
    ReaderGone = 141,
}

impl From<Status> for ExitCode {
    ghost use Rattle.std.specs.Process.{exit_status};

    ghost from_gives = { λ status code. exit_status code ≡ number_of status };

    fn from(status: Status) -> ExitCode {
        ExitCode::from(status as u8)
    }
}

/// Why a run ends early whatever its command is, in the words that the user is told.
#[derive(Debug, Drop, Error)]
pub enum ProgramFault {
    #[error("a word of the command line is not UTF-8")]
    NotText,
    /// A file that the command line names.
    #[error("cannot open the file")]
    Open,
    #[error("out of memory")]
    Memory,
    #[error("cannot write the output")]
    Write,
}

impl ProgramFault {
    /// How a run ends that this ended early.
    pub fn status(&self) -> Status
        ensures { result ≡ ending_by_program self.now }
    {
        match self {
            ProgramFault::NotText => Status::CommandLine,
            ProgramFault::Open => Status::Refused,
            ProgramFault::Memory => Status::Memory,
            ProgramFault::Write => Status::Write,
        }
    }
}
