//! What can go wrong where a play is told.

use crate::fault::PlayRunFault;
use crate::limits::MAX_TOLD;
use rh_bytes::WriteFault;
use thiserror::Error;

/// Why a play was not told, or its text not written, or not all of it.
#[derive(Clone, Copy, Debug, PartialEq, Eq, Error)]
pub enum TellFault {
    /// The play is refused or was not run, or memory was refused, or the text was not written.
    #[error(transparent)]
    Play(PlayRunFault),
    /// It makes more steps than are told.
    #[error("more than {} steps: it can be played, and not traced or drawn", MAX_TOLD)]
    TooLong,
}

impl From<PlayRunFault> for TellFault {
    ghost use Rattle.std.specs.Prelude.{◌≡◌};
    ghost use Rattle.rh_play_run.specs.declared.tell_fault.TellFault.TheVariants.{Play};

    ghost from_gives = { λ fault given. given ≡ Play fault };

    fn from(fault: PlayRunFault) -> TellFault {
        TellFault::Play(fault)
    }
}

impl From<WriteFault> for TellFault {
    ghost use Rattle.std.specs.Prelude.{◌≡◌};
    ghost use Rattle.rh_play_run.specs.declared.tell_fault.TellFault.TheVariants.{Play};
    ghost use Rattle.rh_play_run.specs.declared.fault.PlayRunFault.TheVariants.{Write};

    ghost from_gives = { λ _ fault. fault ≡ Play Write };

    fn from(_fault: WriteFault) -> TellFault {
        TellFault::Play(PlayRunFault::Write)
    }
}
