//! Why no player is made.

use std::alloc::{AllocError, AllocFailed};
use thiserror::Error;

/// Why no player is made, in the order in which it is tested.
#[derive(Clone, Copy, Debug, PartialEq, Eq, Error)]
pub enum PlayFault {
    #[error("cells are not a layout")]
    NotALayout,
    /// A cell might not stay free.
    #[error("no room")]
    NoRoom,
    #[error("bad number of workers")]
    BadWorkers,
    #[error("key out of range")]
    BadKey,
    #[error("out of memory")]
    Memory,
}

impl From<AllocError> for PlayFault {
    ghost use Rattle.std.specs.Prelude.{◌≡◌};
    ghost use Rattle.rh_interleaving.specs.declared.fault.PlayFault.TheVariants.{Memory};

    ghost from_gives = { λ _ fault. fault ≡ Memory };

    fn from(_error: AllocError) -> PlayFault {
        PlayFault::Memory
    }
}
