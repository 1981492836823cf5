//! How the program ends.

ghost use Rattle.std.specs.Prelude.{◌≡◌};
ghost use Rattle.rh_streams.specs.Finishing.{told_as};
ghost use Rattle.rhplay.specs.Endings.{ending_by, ending_by_play};

use rh_cli::{ProgramFault, Status};
use rh_interleaving::PlayFault;
use rh_play_run::{DrawFault, PlayRunFault, TellFault};
use rh_play_text::PlayTextKind;
use thiserror::Error;

/// Why a run ends early, in the words that the user is told.
#[derive(Debug, Drop, Error)]
pub enum Fault {
    #[error(transparent)]
    Program(#[from] ProgramFault),
    #[error(transparent)]
    Play(#[from] TellFault),
    #[error(transparent)]
    Draw(#[from] DrawFault),
}

impl Fault {
    /// How a run ends that this ended early.
    pub fn status(&self) -> Status
        ensures { result ≡ ending_by self.now }
    {
        match self {
            Fault::Program(fault) => fault.status(),
            Fault::Play(TellFault::Play(fault)) | Fault::Draw(DrawFault::Play(fault)) => {
                status_of_play(fault)
            }
            Fault::Play(TellFault::TooLong) => Status::Refused,
            Fault::Draw(DrawFault::TooLong | DrawFault::TooMany | DrawFault::NoStep) => {
                Status::Refused
            }
        }
    }
}

fn status_of_play(fault: &PlayRunFault) -> Status
    ensures { result ≡ ending_by_play fault.now }
{
    match fault {
        PlayRunFault::Memory | PlayRunFault::Start(PlayFault::Memory) => Status::Memory,
        PlayRunFault::Read | PlayRunFault::Start(_) => Status::Refused,
        PlayRunFault::Text(fault) => match fault.kind {
            PlayTextKind::Memory => Status::Memory,
            _ => Status::Refused,
        },
        PlayRunFault::Write => Status::Write,
    }
}

/// What came of a play, told as by the program.
pub fn playing(outcome: Result<(), TellFault>) -> Result<(), Fault>
    ensures { result ≡ told_as Fault.Play outcome }
{
    match outcome {
        Ok(()) => Ok(()),
        Err(fault) => Err(Fault::Play(fault)),
    }
}

/// The same of a drawing.
pub fn drawing(outcome: Result<(), DrawFault>) -> Result<(), Fault>
    ensures { result ≡ told_as Fault.Draw outcome }
{
    match outcome {
        Ok(()) => Ok(()),
        Err(fault) => Err(Fault::Draw(fault)),
    }
}
