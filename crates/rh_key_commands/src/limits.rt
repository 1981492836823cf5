//! The limit of the command line.

/// The most workers that combine lists.
pub const MAX_WORKERS: usize = 64;
