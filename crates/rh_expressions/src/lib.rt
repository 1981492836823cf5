//! Expressions of named lists, as `(a & b) - c`: what is true of a number, by the lists in which it
//! stands.
//!
//! `rh_questions` stands on it, which asks it of the numbers of lists.
//!
//! ```text
//! let select = read_select(alloc, "(a & b) - c", &["a=1.txt", "b=2.txt", "c=3.txt"])?;
//! select.expression    // Joined(Subtract, Joined(Intersect, List(0), List(1)), List(2))
//! select.paths         // 1.txt, 2.txt, 3.txt
//! ```
//!
//! `specs/Grammar.antt` has the grammar. A name is of letters, digits and `_`. `&` binds closest;
//! `|`, `-` and `^` bind alike, and are read from left to right.
//!
//! Proved:
//!
//! - `read_select`: the expression is what the grammar reads in the text, with the names of the
//!   words `NAME=FILE`, and the paths are theirs, in order. Each name stands in the expression.
//!   Else the first fault is told: of the first word that is none of these, or whose name an
//!   earlier word has; then of the text, at the byte where the grammar goes no further; then the
//!   first name that the expression leaves out.
#![tactic(auto)]

mod expression;
mod fault;
mod limits;
mod naming;
mod reading;
mod select;
mod token;

pub use expression::Expression;
pub use fault::{ExpressionFault, SelectFault};
pub use limits::MAX_EXPRESSION_BYTES;
pub use select::{Select, read_select};
