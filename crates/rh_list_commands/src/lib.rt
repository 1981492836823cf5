//! The commands that ask a question of several lists, as `intersect`, `union`, `subtract` and `xor`
//! do, from files to a writer.
//!
//! `rhkeys` stands on it.
//!
//! Proved, for every shelf, reader and writer whose bytes are known:
//!
//! - `combine_files`: where it answers `Ok`, the files and the input were texts of numbers or key
//!   files, and what was written is what is answered of their numbers, as a text, as their count or
//!   as a key file. Else it is the first fault of the first list that has one, and nothing was
//!   written; or memory or a write failed, and a front was written. A device is blamed only where
//!   its count of failures rose, a file that was not found only where there is none, and one of
//!   which a read failed only where the shelf was shown such a reader.
//! - The number of workers stands in none of it: `commands_agree`.
#![tactic(auto)]

mod combining;
mod laws;

pub use combining::{Job, combine_files};
pub use laws::commands_agree;
