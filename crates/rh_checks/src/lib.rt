//! Lists, checked: which lines of a text are bad, and what the numbers of a list are.
//!
//! `rhkeys` stands on it.
//!
//! ```text
//! let report = check_list(&team, &mut Counted::new(file), &mut Nobody)?;
//! let text = report.text(alloc, "ids.csv: ")?;
//! ```
//!
//! Proved:
//!
//! - `check_list`, of every reader whose bytes are known: of a text the report has the first 20 bad
//!   lines, each with its number, what is wrong with it and how it is shown, and how many more there
//!   are; and how many numbers the good lines say, how many different ones, the least and the
//!   greatest. Of a key file it has the same of its keys, or else the first fault in it is told.
//! - A failed read is told only where the reader's count of failures rose, and that a text is too
//!   long only of one of 2^63 bytes or more. No bad line is a fault.
//! - `Report::text`: the text of the report is exactly that.
//! - `tell_list`: that text was written, or a front of it where the writer failed; where the list has
//!   a fault, nothing was written. It answers whether no line is bad.
//! - `same_first_fault`: a text has no bad line exactly where `text_said` of `rh_numbers` has no
//!   fault, and else the first one is that fault. What a line says by itself is what is read of it
//!   alone.
//! - `fixed_numbers`: 20 bad lines are shown.
//!
//! Memory: 8 bytes for each number, twice that while they grow, and 24 while they are counted.
#![tactic(auto)]

mod checking;
mod fault;
mod finding;
mod found;
mod laws;
mod limits;
mod report;
mod sums;
mod text;
mod walk;

pub use checking::{check_list, tell_list};
pub use fault::CheckFault;
pub use found::ShownLine;
pub use laws::{fixed_numbers, same_first_fault};
pub use limits::SHOWN_LINES;
pub use report::Report;
pub use sums::{Span, Sums};
