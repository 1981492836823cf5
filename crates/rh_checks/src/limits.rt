//! How much is told of a list.

/// So many bad lines of a text are shown, and those behind them are counted.
pub const SHOWN_LINES: usize = 20;
