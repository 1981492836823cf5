//! What is written of the numbers that come of lists.

/// What is written of the numbers that come of lists, which rise.
#[derive(Clone, Copy, Debug, PartialEq, Eq)]
pub enum Form {
    /// One on each line.
    Lines,
    /// How many they are, on a line.
    Count,
    /// A key file of the second version, however many they are.
    Packed,
}
