//! What is made of lists.

/// What is made of lists of numbers.
#[derive(Clone, Copy, Debug, PartialEq, Eq)]
pub enum How {
    /// The numbers that stand in each list.
    Intersect,
    /// The numbers that stand in one list or more.
    Union,
    /// The numbers of the first list that stand in no other one.
    Subtract,
    /// The numbers that stand in an odd number of lists.
    Xor,
}
