//! A set of one worker, whose cells do not tell in which order its keys came.

use rh_edit::SeqSet;
use std::alloc::{AllocError, Global};

/// Two sets of the same keys that were made in two ways.
#[derive(Drop)]
pub(crate) struct Pair {
    pub(crate) first: SeqSet,
    pub(crate) second: SeqSet,
}

impl Pair {
    /// The squares up to 36 without 16; and the same, put in backwards and without more.
    pub(crate) fn of_squares(alloc: Global) -> Result<Pair, AllocError> {
        let mut first = SeqSet::from_keys(alloc, 4, &[1, 4, 9, 16, 25, 36])?;
        first.remove(16);
        let second = SeqSet::from_keys(alloc, 4, &[36, 25, 9, 4, 1])?;
        Ok(Pair { first, second })
    }

    /// Whether both have the same cells.
    pub(crate) fn are_same(&self) -> bool {
        self.first.cells() == self.second.cells()
    }
}
