//! What can be wrong with a snapshot.

ghost use Rattle.std.proofs.Common.{rules};
ghost use Rattle.rh_snapshot.specs.Reading.{is_snap_silent};
ghost use Rattle.rh_snapshot.specs.declared.fault.SnapFault.TheVariants.{Long, Memory, Read, Short};

use rh_bytes::InputFault;
use thiserror::Error;

/// Why a snapshot could not be read.
#[derive(Clone, Copy, Debug, PartialEq, Eq, Error)]
pub enum SnapFault {
    /// The first four bytes are neither magic.
    #[error("not a snapshot")]
    NotSnapshot,
    #[error("snapshot ends early")]
    Short,
    #[error("bits out of range")]
    BadBits,
    #[error("seal does not match")]
    Damaged,
    /// Also where the count is not that of the full cells, a number stands for no key, or no cell
    /// is free.
    #[error("cells are not a layout")]
    NotALayout,
    #[error("snapshot goes on after its seal")]
    Long,
    #[error("read failed")]
    Read,
    #[error("out of memory")]
    Memory,
}

impl InputFault for SnapFault {
    ghost is_silent = { is_snap_silent };

    ghost short_fault = { Short };

    ghost long_fault = { Long };

    ghost read_fault = { Read };

    ghost memory_fault = { Memory };

    ghost are_faults = { Prim.search rules };

    fn short() -> SnapFault {
        SnapFault::Short
    }

    fn long() -> SnapFault {
        SnapFault::Long
    }

    fn read() -> SnapFault {
        SnapFault::Read
    }
}
