//! What can go wrong.

use rh_bytes::WriteFault;
use rh_interleaving::PlayFault;
use rh_play_text::PlayTextFault;
use std::alloc::{AllocError, AllocFailed};
use thiserror::Error;

/// Why a play was not run, or its text not written, or not all of it.
#[derive(Clone, Copy, Debug, PartialEq, Eq, Error)]
pub enum PlayRunFault {
    #[error("read failed")]
    Read,
    /// The text says no play, or memory was refused while it was read to its values.
    #[error(transparent)]
    Text(PlayTextFault),
    /// The play does not begin, or memory was refused while its workers were made.
    #[error(transparent)]
    Start(PlayFault),
    /// Memory was refused anywhere else.
    #[error("out of memory")]
    Memory,
    #[error("cannot write the output")]
    Write,
}

impl From<PlayTextFault> for PlayRunFault {
    ghost use Rattle.std.specs.Prelude.{◌≡◌};
    ghost use Rattle.rh_play_run.specs.declared.fault.PlayRunFault.TheVariants.{Text};

    ghost from_gives = { λ fault given. given ≡ Text fault };

    fn from(fault: PlayTextFault) -> PlayRunFault {
        PlayRunFault::Text(fault)
    }
}

impl From<PlayFault> for PlayRunFault {
    ghost use Rattle.std.specs.Prelude.{◌≡◌};
    ghost use Rattle.rh_play_run.specs.declared.fault.PlayRunFault.TheVariants.{Start};

    ghost from_gives = { λ fault given. given ≡ Start fault };

    fn from(fault: PlayFault) -> PlayRunFault {
        PlayRunFault::Start(fault)
    }
}

impl<T: Drop> From<AllocFailed<T>> for PlayRunFault {
    ghost use Rattle.std.specs.Prelude.{◌≡◌};
    ghost use Rattle.rh_play_run.specs.declared.fault.PlayRunFault.TheVariants.{Memory};

    ghost from_gives = { λ _ fault. fault ≡ Memory };

    fn from(_error: AllocFailed<T>) -> PlayRunFault {
        PlayRunFault::Memory
    }
}

impl From<AllocError> for PlayRunFault {
    ghost use Rattle.std.specs.Prelude.{◌≡◌};
    ghost use Rattle.rh_play_run.specs.declared.fault.PlayRunFault.TheVariants.{Memory};

    ghost from_gives = { λ _ fault. fault ≡ Memory };

    fn from(_error: AllocError) -> PlayRunFault {
        PlayRunFault::Memory
    }
}

impl From<WriteFault> for PlayRunFault {
    ghost use Rattle.std.specs.Prelude.{◌≡◌};
    ghost use Rattle.rh_play_run.specs.declared.fault.PlayRunFault.TheVariants.{Write};

    ghost from_gives = { λ _ fault. fault ≡ Write };

    fn from(_fault: WriteFault) -> PlayRunFault {
        PlayRunFault::Write
    }
}
