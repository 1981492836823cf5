//! Why nothing was put.

use thiserror::Error;

/// Why no number was put.
#[derive(Clone, Copy, Debug, PartialEq, Eq, Error)]
pub enum Refused {
    /// A number of a list is greater than the greatest key: the first one, by the list that has it
    /// and its place there, both from 0.
    #[error("number {at} of list {list}: not a key")]
    NotAKey { list: usize, at: usize },
    /// So many numbers come of the lists, and the slice takes fewer.
    #[error("no room for {count} numbers")]
    NoRoom { count: usize },
    #[error("out of memory")]
    Memory,
}
