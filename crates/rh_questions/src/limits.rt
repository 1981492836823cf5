//! How many lists there may be.

/// The most lists of which a number's own are known: a bit of a word for each.
pub const MOST_LISTS: usize = 64;

/// The most lists that are compared: a count is held for each combination of them.
pub const MOST_COMPARED: usize = 16;
