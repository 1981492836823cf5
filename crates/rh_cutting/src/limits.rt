//! How many parts there may be.

/// The most parts.
pub const MOST_PARTS: usize = 1_024;
