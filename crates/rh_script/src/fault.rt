//! What can be wrong.

ghost use Rattle.std.specs.Prelude.{◌≡◌};
ghost use Rattle.rh_script.specs.declared.fault.ScriptFaultKind.TheVariants.{Memory};

use std::alloc::{AllocError, AllocFailed};
use thiserror::Error;

/// Why a line of a script was refused.
#[derive(Clone, Copy, Debug, PartialEq, Eq, Error)]
pub enum ScriptFaultKind {
    /// The line has too many bytes, or comes after the last that a script may have.
    #[error("too long")]
    TooLong,
    /// The first word is no command, the number of words is wrong, or a byte is not printable.
    #[error("bad command")]
    BadCommand,
    #[error("bad name")]
    BadName,
    /// No earlier line gave the name.
    #[error("unknown name")]
    Unknown,
    /// An earlier line gave the name, or took the path.
    #[error("given twice")]
    Twice,
    #[error("out of memory")]
    Memory,
}

impl From<AllocError> for ScriptFaultKind {
    ghost from_gives = { λ _ kind. kind ≡ Memory };

    fn from(_error: AllocError) -> ScriptFaultKind {
        ScriptFaultKind::Memory
    }
}

impl<T: Drop> From<AllocFailed<T>> for ScriptFaultKind {
    ghost from_gives = { λ _ kind. kind ≡ Memory };

    fn from(_error: AllocFailed<T>) -> ScriptFaultKind {
        ScriptFaultKind::Memory
    }
}

/// The first fault of a script. Lines are numbered from 1.
#[derive(Clone, Copy, Debug, PartialEq, Eq, Error)]
#[error("line {line}: {kind}")]
pub struct ScriptFault {
    pub line: u64,
    pub kind: ScriptFaultKind,
}
