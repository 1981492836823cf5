//! An entry of a swap of several cells.

/// One cell that the swap changes, and from what to what: from one value to another, or, where
/// words stand for the values, from one plain word to another. The value of an empty cell is 0,
/// that of another its key plus 1.
#[derive(Clone, Copy, Debug, PartialEq, Eq)]
pub struct Entry {
    /// The number of the cell.
    pub cell: usize,
    /// What the cell has to hold.
    pub old: u64,
    /// What it holds then.
    pub new: u64,
}
