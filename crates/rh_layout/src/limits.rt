//! The limits of keys and tables.

/// The greatest key. A cell holds a key as itself plus 1, in 62 bits.
pub const MAX_KEY: u64 = (1 << 62) - 2;

/// The most keys that a list in a file may have: a key file, or a text of numbers.
pub const MAX_KEYS: u64 = 1_000_000;

/// The least size of a table, in bits: it has 2 to the power of its bits cells.
pub const MIN_BITS: u32 = 3;

/// The greatest size of a table, in bits.
pub const MAX_BITS: u32 = 18;
