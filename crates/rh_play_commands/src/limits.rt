//! The limits of the command line.

/// The most steps that `draw` draws.
pub const MAX_DRAWN: usize = 2_000;

/// The greatest number of a step that `draw` may begin with.
pub const MAX_FROM: usize = (1 << 63) - 1;
