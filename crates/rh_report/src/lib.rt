//! The text of each command's report.
//!
//! `rh_script_run` stands on it.
//!
//! Proved: `write_account` writes the line of an account, and `write_asked` those of look-ups.
//! `fixed_numbers`: a line of answers has 64, but for the last.
#![tactic(auto)]

mod answers;
mod laws;
mod lines;

pub use answers::{ANSWERS_PER_LINE, write_asked};
pub use laws::fixed_numbers;
pub use lines::{Account, Change, Table, write_account};
