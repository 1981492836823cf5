//! The limit of an argument that several commands share.

/// The most lines of a text that are passed by.
pub const MAX_SKIP: usize = 1_000_000_000;
