//! The limit of the command line.

/// The most parts that `split` makes.
pub const MAX_PARTS: usize = 1_000;
