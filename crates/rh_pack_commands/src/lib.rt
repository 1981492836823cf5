//! The command line of `rhpack`.
//!
//! `rhpack` stands on it.
//!
//! Proved:
//!
//! - `line`: the command is the one that the words name, by the rules of `clap`, with what they
//!   give. It is refused exactly by the kinds of fault that those rules give.
//! - `fixed_numbers`: at most 1,000 parts are taken.
#![tactic(auto)]

mod asked;
mod help;
mod laws;
mod limits;
mod parse;

pub use asked::Line;
pub use laws::fixed_numbers;
pub use limits::MAX_PARTS;
pub use parse::{NAME, line};
