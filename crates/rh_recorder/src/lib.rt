//! Words of a table that record what the last step on them touched, so that a play can tell each
//! step.
//!
//! `rh_turns` and `rh_trace` stand on it.
//!
//! Proved:
//!
//! - `Recorder`, a `Steps`: just the step that is asked for, as on a list of words. What is
//!   recorded of it is the part that it touched, the word that it found there, and the word that it
//!   left.
//! - `part_at`: the part of a table that stands at a word of it.
#![tactic(auto)]

mod part;
mod recorder;

pub use part::part_at;
pub use recorder::{Recorder, Touched};
