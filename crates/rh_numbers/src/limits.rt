//! The limit of a text, and the parts that it is read in.

/// A text of so many bytes, 2^63, or more is not read to its end.
/// The loop that reads has to be seen to end for every reader, and the number of a line to fit. The
/// grammar has no such limit.
pub const MAX_BYTES: u64 = PART_BYTES as u64 * MAX_READS;

/// A text is read in parts of so many bytes.
pub const PART_BYTES: usize = 8192;

/// The most parts that are read of a text.
pub const MAX_READS: u64 = 1 << 50;
