//! What can be wrong.

ghost use Rattle.std.proofs.Common.{rules};
ghost use Rattle.rh_key_files.specs.Reading.{is_silent};
ghost use Rattle.rh_key_files.specs.declared.fault.KeyFault.TheVariants.{Long, Memory, Read, Short};

use rh_bytes::InputFault;
use rh_layout::MAX_KEYS;
use thiserror::Error;

/// Why a key file could not be read.
#[derive(Clone, Copy, Debug, PartialEq, Eq, Error)]
pub enum KeyFault {
    /// The first four bytes are neither magic.
    #[error("not a key file")]
    NotKeys,
    #[error("key file ends early")]
    Short,
    #[error("more than {} keys", MAX_KEYS)]
    TooMany,
    #[error("key {index} is out of range")]
    BadKey { index: u64 },
    #[error("key file goes on after its last key")]
    Long,
    #[error("read failed")]
    Read,
    #[error("out of memory")]
    Memory,
}

impl InputFault for KeyFault {
    ghost is_silent = { is_silent };

    ghost short_fault = { Short };

    ghost long_fault = { Long };

    ghost read_fault = { Read };

    ghost memory_fault = { Memory };

    ghost are_faults = { Prim.search rules };

    fn short() -> KeyFault {
        KeyFault::Short
    }

    fn long() -> KeyFault {
        KeyFault::Long
    }

    fn read() -> KeyFault {
        KeyFault::Read
    }
}
