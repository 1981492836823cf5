//! How a text is cut.

/// A text is read in blocks of so many bytes at the most. Two of them are held.
pub const BLOCK_BYTES: usize = 1 << 24;

/// The first one has so many, where no text before it was longer.
pub const FIRST_BYTES: usize = 1 << 16;

/// The one behind another is so many times longer.
pub const TIMES_LONGER: usize = 16;
