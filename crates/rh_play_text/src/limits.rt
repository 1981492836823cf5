//! The limits of a play's text.

/// The most bytes that a text may have.
pub const MAX_TEXT_BYTES: usize = 1_048_576;

/// The least bits of a table.
pub const MIN_BITS: u64 = 3;

/// The most bits of a table.
pub const MAX_BITS: u64 = 18;

/// The largest room for descriptors, and for marks.
pub const MAX_PLAY_ROOM: u64 = 100_000;

/// The most turns that a line may ask for.
pub const MAX_TURNS: u64 = 1_000_000;

/// The most digits of a number.
pub(crate) const MAX_DIGITS: usize = 20;
