//! What can go wrong where a play is drawn.

use crate::fault::PlayRunFault;
use crate::limits::MAX_TOLD;
use rh_bytes::WriteFault;
use rh_draw::MAX_STEPS;
use std::alloc::AllocError;
use thiserror::Error;

/// Why a play was not drawn, or its picture not written, or not all of it.
#[derive(Clone, Copy, Debug, PartialEq, Eq, Error)]
pub enum DrawFault {
    /// The play is refused or was not run, or memory was refused, or the picture was not written.
    #[error(transparent)]
    Play(PlayRunFault),
    /// It makes more steps than are told.
    #[error("more than {} steps: it can be played, and not traced or drawn", MAX_TOLD)]
    TooLong,
    /// All steps from a number on are more than one picture has.
    #[error("more than {} steps: choose some by --from STEP and --steps N", MAX_STEPS)]
    TooMany,
    /// The play ends before the first step that was chosen.
    #[error("no step left: the play ends before --from STEP")]
    NoStep,
}

impl From<PlayRunFault> for DrawFault {
    ghost use Rattle.std.specs.Prelude.{◌≡◌};
    ghost use Rattle.rh_play_run.specs.declared.draw_fault.DrawFault.TheVariants.{Play};

    ghost from_gives = { λ fault given. given ≡ Play fault };

    fn from(fault: PlayRunFault) -> DrawFault {
        DrawFault::Play(fault)
    }
}

impl From<AllocError> for DrawFault {
    ghost use Rattle.std.specs.Prelude.{◌≡◌};
    ghost use Rattle.rh_play_run.specs.declared.draw_fault.DrawFault.TheVariants.{Play};
    ghost use Rattle.rh_play_run.specs.declared.fault.PlayRunFault.TheVariants.{Memory};

    ghost from_gives = { λ _ fault. fault ≡ Play Memory };

    fn from(_error: AllocError) -> DrawFault {
        DrawFault::Play(PlayRunFault::Memory)
    }
}

impl From<WriteFault> for DrawFault {
    ghost use Rattle.std.specs.Prelude.{◌≡◌};
    ghost use Rattle.rh_play_run.specs.declared.draw_fault.DrawFault.TheVariants.{Play};
    ghost use Rattle.rh_play_run.specs.declared.fault.PlayRunFault.TheVariants.{Write};

    ghost from_gives = { λ _ fault. fault ≡ Play Write };

    fn from(_fault: WriteFault) -> DrawFault {
        DrawFault::Play(PlayRunFault::Write)
    }
}
