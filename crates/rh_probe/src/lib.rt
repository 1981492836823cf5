//! Scans of consecutive cells of a Robin Hood table, and what they tell of a layout.
//!
//! `rh_edit` stands on it for a table that one worker has alone; `rh_acts` and the crates above it
//! for cells that were read one by one.
//!
//! ```text
//! look(3, 9, &[2])             // Look::More: the cells from its home on do not decide yet
//! look(3, 9, &[2, 10])         // Look::Here(1): the second cell holds it
//! look(3, 22, &[2, 10, 18, 0]) // Look::Goes(3): it is nowhere, and belongs into the fourth
//! find(3, &cells, 9)           // Some(5), of the whole table of 1, 9 and 17
//! ```
//!
//! Proved:
//!
//! - `look`, `free_after`, `stop_after` and `is_movable` answer the first offset that decides,
//!   exactly.
//! - `look_tells`: on a layout `Here` means that the key is held, and `Goes` that it is not.
//! - `probe_length`, `find`, `next_cell` and `cell_after` are exact on a whole table.
#![tactic(auto)]

mod answer;
mod laws;
mod probing;
mod scan;

pub use answer::Look;
pub use laws::look_tells;
pub use probing::{cell_after, find, next_cell, probe_length};
pub use scan::{free_after, is_movable, look, stop_after};
