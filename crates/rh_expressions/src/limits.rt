//! The limit of an expression.

/// The most bytes of an expression. So no stack runs out where one is read, asked or dropped.
pub const MAX_EXPRESSION_BYTES: usize = 4_096;
