//! The command line of `rhkeys`.
//!
//! `rh_keys_program` and `rhkeys` stand on it, and `rhset` does not, which is built without it.
//!
//! Proved:
//!
//! - `line`: the command is the one that the words name, by the rules of `clap`, with what they
//!   give. It is refused exactly by the kinds of fault that those rules give.
//! - `fixed_numbers`: at most 64 workers are taken.
#![tactic(auto)]

mod asked;
mod elsewhere;
mod help;
mod laws;
mod limits;
mod parse;

pub use asked::{Asked, Line};
pub use elsewhere::meant;
pub use laws::fixed_numbers;
pub use limits::MAX_WORKERS;
pub use parse::{NAME, line};
