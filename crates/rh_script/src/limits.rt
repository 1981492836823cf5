//! The limits of a script.

/// The most lines that a script may have.
pub const MAX_LINES: u64 = 10_000;

/// The most bytes that a line may have, without its line feed.
pub const MAX_LINE_BYTES: usize = 1_024;

/// The most bytes that the name of a list may have.
pub const MAX_NAME_BYTES: usize = 16;
