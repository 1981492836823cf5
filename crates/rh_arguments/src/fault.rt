//! Why the words ask for nothing that can be done.

use clap::Error;
use clap::error::ErrorKind;
use std::alloc::AllocError;

/// Why there is no command to carry out.
#[derive(Drop)]
pub enum LineFault {
    /// The words are refused, or ask for the help or the version. The error's text says which.
    Words(Error),
    Memory,
}

impl From<Error> for LineFault {
    ghost use Rattle.rh_arguments.specs.Faults.{PassesOn};

    ghost from_gives = { PassesOn };

    fn from(error: Error) -> LineFault {
        match error.kind() {
            ErrorKind::OutOfMemory => LineFault::Memory,
            _ => LineFault::Words(error),
        }
    }
}

impl From<AllocError> for LineFault {
    ghost use Rattle.std.specs.Prelude.{◌≡◌};
    ghost use Rattle.rh_arguments.specs.declared.fault.LineFault.TheVariants.{Memory};

    ghost from_gives = { λ _ fault. fault ≡ Memory };

    fn from(_error: AllocError) -> LineFault {
        LineFault::Memory
    }
}
