//! The steps of a play as they were made, and their lines.
//!
//! `rh_draw` and `rh_play_run` stand on it.
//!
//! Proved:
//!
//! - `push_step`: the text grew by exactly the line of the step, or, where memory was refused, it
//!   is as it was. The line has the step's number, its worker, its kind, its part and the word that
//!   it found. The word that it left follows where that is another one.
//! - `push_step_text`, `push_word`: the same of the line with no line feed, and of what a word of a
//!   part says.
#![tactic(auto)]

mod phrase;
mod telling;
mod traced;
mod words;

pub use rh_recorder::Touched;
pub use telling::{push_step, push_step_text, push_word};
pub use traced::Traced;
