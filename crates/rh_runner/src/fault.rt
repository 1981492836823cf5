//! Why a list was not gone through.

use crate::runner::PhaseFault;
use rh_key_files::KeyFault;
use std::alloc::AllocError;
use thiserror::Error;

/// Why a phase over a whole list was not carried out.
#[derive(Clone, Copy, Debug, PartialEq, Eq, Error)]
pub enum ListFault {
    #[error(transparent)]
    Keys(KeyFault),
    #[error(transparent)]
    Phase(PhaseFault),
}

impl From<KeyFault> for ListFault {
    ghost use Rattle.std.specs.Prelude.{◌≡◌};
    ghost use Rattle.rh_runner.specs.declared.fault.ListFault.TheVariants.{Keys};

    ghost from_gives = { λ fault given. given ≡ Keys fault };

    fn from(fault: KeyFault) -> ListFault {
        ListFault::Keys(fault)
    }
}

impl From<PhaseFault> for ListFault {
    ghost use Rattle.std.specs.Prelude.{◌≡◌};
    ghost use Rattle.rh_runner.specs.declared.fault.ListFault.TheVariants.{Phase};

    ghost from_gives = { λ fault given. given ≡ Phase fault };

    fn from(fault: PhaseFault) -> ListFault {
        ListFault::Phase(fault)
    }
}

impl From<AllocError> for ListFault {
    ghost use Rattle.std.specs.Prelude.{◌≡◌};
    ghost use Rattle.rh_runner.specs.declared.fault.ListFault.TheVariants.{Phase};
    ghost use Rattle.rh_runner.specs.declared.runner.PhaseFault.TheVariants.{Memory};

    ghost from_gives = { λ _ given. given ≡ Phase Memory };

    fn from(_error: AllocError) -> ListFault {
        ListFault::Phase(PhaseFault::Memory)
    }
}
