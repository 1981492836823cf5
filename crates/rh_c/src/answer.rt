//! What a call answers, in numbers.

ghost use Rattle.std.specs.Prelude.{◌≡◌, ℕ, Result};
ghost use Rattle.rh_slices.specs.declared.refused.Refused.{Refused as Why};
ghost use Rattle.rh_set.specs.declared.fault.InsertFault.{InsertFault as WhyNotAdded};
ghost use Rattle.rh_set.specs.declared.fault.PutFault.{PutFault as WhyNotPut};
ghost use Rattle.rh_snapshot.specs.declared.fault.SnapFault.{SnapFault as WhyNotRead};
ghost use Rattle.rh_c.specs.Answers.{IsStatus};
ghost use Rattle.rh_c.specs.Sets.{IsInsertStatus, IsPutStatus, restore_status};

use rh_set::{InsertFault, PutFault};
use rh_slices::Refused;
use rh_snapshot::SnapFault;

/// The numbers were put: `number` of them.
pub const DONE: u32 = 0;

/// The number at place `number` of list `list`, both from 0, is greater than the greatest key.
pub const BAD_KEY: u32 = 1;

/// There are `number` numbers, more than there is room for.
pub const NO_ROOM: u32 = 2;

/// Want of memory.
pub const NO_MEMORY: u32 = 3;

/// A table of the greatest size takes no key more.
pub const FULL: u32 = 4;

/// The bytes are no snapshot: they begin with neither of its magics.
pub const NOT_SNAPSHOT: u32 = 5;

/// The snapshot ends early.
pub const SHORT: u32 = 6;

/// The snapshot is of a table of a size that there is not.
pub const BAD_BITS: u32 = 7;

/// The seal does not match.
pub const DAMAGED: u32 = 8;

/// The cells are not a layout.
pub const NOT_A_LAYOUT: u32 = 9;

/// The snapshot goes on after its seal.
pub const LONG: u32 = 10;

/// The version of the library: of 1.2.3 it would be 10203.
pub const VERSION: u32 = 100;

/// What a status is about. Where a status tells nothing of a field, the field is 0.
#[repr(C)]
#[derive(Clone, Copy, Debug, PartialEq, Eq)]
pub struct Detail {
    pub list: u64,
    pub number: u64,
}

/// The status of an outcome, and what that is about.
pub(crate) fn tell(outcome: Result<usize, Refused>, detail: &mut Detail) -> u32
    ensures { IsStatus outcome result detail.new }
{
    let (status, list, number) = match outcome {
        Ok(count) => (DONE, 0, count),
        Err(Refused::NotAKey { list, at }) => (BAD_KEY, list, at),
        Err(Refused::NoRoom { count }) => (NO_ROOM, 0, count),
        Err(Refused::Memory) => (NO_MEMORY, 0, 0),
    };
    *detail = Detail {
        list: list as u64,
        number: number as u64,
    };
    status
}

/// The same of an insertion: whether the key was added is 1 or 0.
pub(crate) fn tell_insert(outcome: Result<bool, InsertFault>, detail: &mut Detail) -> u32
    ensures { IsInsertStatus outcome result detail.new }
{
    let (status, number) = match outcome {
        Ok(added) => (DONE, u64::from(added)),
        Err(InsertFault::NotAKey) => (BAD_KEY, 0),
        Err(InsertFault::Full) => (FULL, 0),
        Err(InsertFault::Memory) => (NO_MEMORY, 0),
    };
    *detail = Detail { list: 0, number };
    status
}

/// The same of what was put at the front of a slice.
pub(crate) fn tell_put(outcome: Result<usize, PutFault>, detail: &mut Detail) -> u32
    ensures { IsPutStatus outcome result detail.new }
{
    let (status, number) = match outcome {
        Ok(count) => (DONE, count),
        Err(PutFault::NoRoom { count }) => (NO_ROOM, count),
        Err(PutFault::Memory) => (NO_MEMORY, 0),
    };
    *detail = Detail {
        list: 0,
        number: number as u64,
    };
    status
}

/// The status of a snapshot that was read. No read of bytes in memory fails.
pub(crate) fn tell_restore(outcome: Result<(), SnapFault>) -> u32
    ensures { result ≡ restore_status outcome }
{
    match outcome {
        Ok(()) => DONE,
        Err(SnapFault::NotSnapshot) => NOT_SNAPSHOT,
        Err(SnapFault::Short) => SHORT,
        Err(SnapFault::BadBits) => BAD_BITS,
        Err(SnapFault::Damaged) => DAMAGED,
        Err(SnapFault::NotALayout) => NOT_A_LAYOUT,
        Err(SnapFault::Long) => LONG,
        Err(SnapFault::Read | SnapFault::Memory) => NO_MEMORY,
    }
}
