//! Why `rhpack` ends early, in the words that the user is told.

ghost use Rattle.std.specs.Prelude.{◌≡◌};
ghost use Rattle.rh_pack_program.specs.Endings.{ending_by, ending_by_part};

use rh_cli::{ProgramFault, Status};
use rh_endings::{status_of_keys, status_of_snapshot};
use rh_key_files::MAX_KEYS;
use rh_keys_program::{Fault as ListsFault, Place, Reason};
use rh_numbers::TextFault;
use rh_snapshot::SnapFault;
use rh_splitting::{FilesFault, SplitFault};
use thiserror::Error;

/// Why a run ends early, in the words that the user is told.
#[derive(Debug, Drop, Error)]
pub enum Fault {
    /// What each run that reads lists may be told.
    #[error(transparent)]
    Lists(#[from] ListsFault),
    /// The snapshot that was read there has this fault.
    #[error("{place}{fault}{reason}")]
    Held {
        place: Place,
        fault: SnapFault,
        reason: Reason,
    },
    /// A part of a list was not written, and no other one was.
    #[error(transparent)]
    Part(FilesFault),
    /// A part of a list is too full; so many parts would do, by the size of the input. (All repeats
    /// of a number go to one part, which no number of parts helps.)
    #[error("part {part:03}: more than {} keys; by the size of the input {parts} parts would do, \
         where no number repeats so often", MAX_KEYS)]
    TooFull {
        part: u64,
        parts: u64,
    },
    #[error("the input is no file whose size is known: give --parts N")]
    Size,
    #[error("bad name: 1 to 200 bytes of printable ASCII, no space or slash")]
    Name,
}

impl Fault {
    ghost use Rattle.std.specs.Prelude.{◌≡◌};
    ghost use Rattle.rh_pack_program.specs.Endings.{ending_by};
    ghost use Rattle.rh_pack_program.specs.Told.{of_program};

    /// A fault that any command may meet.
    pub fn of_program(fault: ProgramFault) -> Fault
        ensures { result ≡ of_program fault }
    {
        Fault::Lists(ListsFault::Program(fault))
    }

    /// How a run ends that this ended early.
    pub fn status(&self) -> Status
        ensures { result ≡ ending_by self.now }
    {
        match self {
            Fault::Lists(fault) => fault.status(),
            Fault::Held { fault, .. } => status_of_snapshot(fault),
            Fault::Part(fault) => status_of_part(fault),
            Fault::TooFull { .. } => Status::Refused,
            Fault::Name | Fault::Size => Status::CommandLine,
        }
    }
}

fn status_of_part(fault: &FilesFault) -> Status
    ensures { result ≡ ending_by_part fault.now }
{
    match fault {
        FilesFault::Split(SplitFault::Text(TextFault::Memory)) => Status::Memory,
        FilesFault::Split(SplitFault::Keys(fault)) => status_of_keys(fault),
        FilesFault::Split(SplitFault::Write { .. }) => Status::Write,
        FilesFault::Split(_) => Status::Refused,
        FilesFault::Create { .. }
        | FilesFault::TooManyOpen { .. }
        | FilesFault::Left { .. }
        | FilesFault::Write { .. } => Status::Write,
        FilesFault::Memory => Status::Memory,
    }
}
