//! What can be wrong.

ghost use Rattle.std.specs.Prelude.{◌≡◌};
ghost use Rattle.rh_play_text.specs.declared.fault.PlayTextKind.TheVariants.{Memory};

use std::alloc::AllocFailed;
use thiserror::Error;

/// Why the text of a play was refused.
#[derive(Clone, Copy, Debug, PartialEq, Eq, Error)]
pub enum PlayTextKind {
    /// The line says nothing that a play may say, or not in its place.
    #[error("bad line")]
    BadLine,
    /// The text has too many bytes.
    #[error("too long")]
    TooLong,
    #[error("out of memory")]
    Memory,
}

impl<T: Drop> From<AllocFailed<T>> for PlayTextKind {
    ghost from_gives = { λ _ kind. kind ≡ Memory };

    fn from(_error: AllocFailed<T>) -> PlayTextKind {
        PlayTextKind::Memory
    }
}

/// The first fault of a text. Lines are numbered from 1; a text that is too long has its fault at
/// line 0.
#[derive(Clone, Copy, Debug, PartialEq, Eq, Error)]
#[error("line {line}: {kind}")]
pub struct PlayTextFault {
    pub line: u64,
    pub kind: PlayTextKind,
}
