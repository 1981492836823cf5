//! Why an operation or a command is not carried out.

ghost use Rattle.std.specs.Prelude.{◌≡◌};
ghost use Rattle.rh_operations.specs.declared.cause.Cause.TheVariants.{Memory, Write};
ghost use Rattle.rh_operations.specs.Causes.{of_keys, of_list, of_snapshot};

use rh_key_files::{KeyFault, WriteFault};
use rh_runner::{ListFault, PhaseFault};
use rh_snapshot::SnapFault;
use std::alloc::{AllocError, AllocFailed};
use thiserror::Error;

/// Why a command was not carried out.
#[derive(Clone, Copy, Debug, PartialEq, Eq, Error)]
pub enum Cause {
    /// There is no file at the path, or it cannot be opened.
    #[error("cannot open the file")]
    Missing,
    /// The key file is refused, or could not be read. Never want of memory.
    #[error(transparent)]
    Keys(KeyFault),
    /// The snapshot is refused, or could not be read. Never want of memory.
    #[error(transparent)]
    Snap(SnapFault),
    /// The list has another number of keys than before.
    #[error("key file has changed")]
    Changed,
    /// No table is large enough.
    #[error("table too large")]
    TooLarge,
    #[error("out of memory")]
    Memory,
    #[error("cannot start a worker")]
    NoThread,
    #[error("cannot write the snapshot")]
    Put,
    #[error("cannot write the output")]
    Write,
}

impl From<KeyFault> for Cause {
    ghost from_gives = { λ fault cause. cause ≡ of_keys fault };

    fn from(fault: KeyFault) -> Cause {
        match fault {
            KeyFault::Memory => Cause::Memory,
            other => Cause::Keys(other),
        }
    }
}

impl From<SnapFault> for Cause {
    ghost from_gives = { λ fault cause. cause ≡ of_snapshot fault };

    fn from(fault: SnapFault) -> Cause {
        match fault {
            SnapFault::Memory => Cause::Memory,
            other => Cause::Snap(other),
        }
    }
}

impl From<ListFault> for Cause {
    ghost from_gives = { λ fault cause. cause ≡ of_list fault };

    fn from(fault: ListFault) -> Cause {
        match fault {
            ListFault::Keys(fault) => Cause::from(fault),
            ListFault::Phase(PhaseFault::Memory) => Cause::Memory,
            ListFault::Phase(PhaseFault::NoThread) => Cause::NoThread,
        }
    }
}

impl From<PhaseFault> for Cause {
    ghost use Rattle.rh_runner.specs.declared.fault.ListFault.TheVariants.{Phase};

    ghost from_gives = { λ fault cause. cause ≡ of_list (Phase fault) };

    fn from(fault: PhaseFault) -> Cause {
        Cause::from(ListFault::Phase(fault))
    }
}

impl From<WriteFault> for Cause {
    ghost from_gives = { λ _ cause. cause ≡ Write };

    fn from(_fault: WriteFault) -> Cause {
        Cause::Write
    }
}

impl From<AllocError> for Cause {
    ghost from_gives = { λ _ cause. cause ≡ Memory };

    fn from(_error: AllocError) -> Cause {
        Cause::Memory
    }
}

impl<T: Drop> From<AllocFailed<T>> for Cause {
    ghost from_gives = { λ _ cause. cause ≡ Memory };

    fn from(_error: AllocFailed<T>) -> Cause {
        Cause::Memory
    }
}
