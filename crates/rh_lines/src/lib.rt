//! Lines of a text, and the words of a line.
//!
//! Scripts (`rh_script`) and plays (`rh_play_text`) are cut by it, so that both have one rule. What
//! their grammars share stands in `specs/Grammar.antt`, and in `proofs/Reading.antt` what a loop
//! over the lines of a text keeps. It knows no fault.
//!
//! Proved:
//!
//! - `next_line`: the first line of a text, without its line feed, and what stands after that; none
//!   exactly where the text has no line.
//! - `without_return`: the line without the carriage return that it ends with, and every other line
//!   as it is.
//! - `is_skipped`: true exactly of the lines that begin with `#` or have no word.
//! - `printable`: the line as a text, exactly where each of its bytes is a space or 33 to 126.
//! - `next_word`: the first word of a line, and what stands after it; none exactly where the line
//!   has no word.
//! - `end_of_words`: something exactly where the line has no word.
#![tactic(auto)]

mod lines;
mod words;

pub use lines::{is_skipped, next_line, without_return};
pub use words::{end_of_words, next_word, printable};
