//! What can be wrong with a text of numbers.

ghost use Rattle.std.specs.Prelude.{◌≡◌};
ghost use Rattle.rh_numbers.specs.declared.fault.TextFault.TheVariants.{Memory};

use rh_layout::{MAX_KEY, MAX_KEYS};
use std::alloc::AllocError;
use thiserror::Error;

/// Why a text of numbers could not be read. Lines are numbered from 1.
#[derive(Clone, Copy, Debug, PartialEq, Eq, Error)]
pub enum TextFault {
    #[error("line {line}: not a number from 0 to {}", MAX_KEY)]
    NotAKey { line: u64 },
    /// The number is greater than the greatest key, however many digits it has.
    #[error("line {line}: number above {}", MAX_KEY)]
    OutOfRange { line: u64 },
    #[error("more than {} keys", MAX_KEYS)]
    TooMany,
    /// The text has `MAX_BYTES` bytes or more, and no fault was met before.
    #[error("text too long")]
    TooLong,
    #[error("read failed")]
    Read,
    #[error("out of memory")]
    Memory,
}

impl From<AllocError> for TextFault {
    ghost from_gives = { λ _ fault. fault ≡ Memory };

    fn from(_error: AllocError) -> TextFault {
        TextFault::Memory
    }
}
