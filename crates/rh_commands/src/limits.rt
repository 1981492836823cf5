//! The limits of the command line.

/// The most workers that `run` takes.
/// That a shared table takes so many is proved where the program starts them: this crate stands on
/// no crate of one.
pub const MAX_WORKERS: usize = 16;
