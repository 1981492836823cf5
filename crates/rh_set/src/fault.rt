//! Why a call did nothing.

use thiserror::Error;

/// Why a key was not added.
#[derive(Clone, Copy, Debug, PartialEq, Eq, Error)]
pub enum InsertFault {
    /// The number is greater than the greatest key.
    #[error("not a key")]
    NotAKey,
    /// A table of the greatest size takes no key more.
    #[error("the table is full")]
    Full,
    #[error("out of memory")]
    Memory,
}

/// Why nothing was put into a slice.
#[derive(Clone, Copy, Debug, PartialEq, Eq, Error)]
pub enum PutFault {
    /// There are so many, and the slice takes fewer.
    #[error("no room for {count}")]
    NoRoom { count: usize },
    #[error("out of memory")]
    Memory,
}
