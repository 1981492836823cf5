//! Test devices: a reader, a writer and a shelf over memory that fail once.
//!
//! The test crates stand on it, and neither `rhset` nor `rhkeys` does. `rh_files` and `rh_planner`
//! hand it on.
//!
//! Proved: `FaultyReader`, `FaultyWriter` and `FaultyShelf` fail once, at the call that was asked
//! for. At each other call they do what a reader, a writer and a shelf over memory do.
#![tactic(auto)]

mod reader;
mod shelf;
mod writer;

pub use reader::FaultyReader;
pub use shelf::{FaultyShelf, ShelfFailure};
pub use writer::{FaultyWriter, Refusal};
