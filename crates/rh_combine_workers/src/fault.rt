//! Why what comes of lists was not written.

ghost use Rattle.std.specs.Prelude.{◌≡◌};
ghost use Rattle.rh_combine_workers.specs.declared.fault.CombineFault.TheVariants.{Memory, Write};

use rh_bytes::WriteFault;
use std::alloc::AllocError;
use thiserror::Error;

/// Why what comes of lists was not written, or not all of it.
#[derive(Clone, Copy, Debug, PartialEq, Eq, Error)]
pub enum CombineFault {
    #[error("out of memory")]
    Memory,
    #[error("cannot write the output")]
    Write,
}

impl From<AllocError> for CombineFault {
    ghost from_gives = { λ fault given. given ≡ Memory };

    fn from(_: AllocError) -> CombineFault {
        CombineFault::Memory
    }
}

impl From<WriteFault> for CombineFault {
    ghost from_gives = { λ fault given. given ≡ Write };

    fn from(_: WriteFault) -> CombineFault {
        CombineFault::Write
    }
}
