//! The limits of a shared table.

/// The most workers that one table may have.
pub const MAX_WORKERS: usize = 16;

/// The most descriptors, and the most marks, that a worker may have in a round: a word has no room
/// for more serial numbers.
pub const MAX_ROOM: u64 = (1 << 56) - 1;

/// How many words of a worker's descriptor row come before the entries: the control, the serial
/// number and the length.
pub const HEAD_WORDS: usize = 3;

/// How many words an entry has: its cell, and its old and its new value.
pub const WORDS_PER_ENTRY: usize = 3;

/// How many words a worker's mark row has: the serial number, the reference of the mark's
/// descriptor, and its entry.
pub const MARK_WORDS: usize = 3;
