//! A play as a picture: one SVG from the records of its steps.
//!
//! `rh_play_run` stands on it. What a picture shows is told by the records and the opening cells
//! alone.
//!
//! Proved:
//!
//! - `draw`, `well_formed`: where memory is there, the bytes are the text of one element with what
//!   it holds. No text has a `<`, a `>` or a `&` of its own, nor a byte that is no printable
//!   character.
//! - `draw`, `drawn`: what can be read off this element (`IsPicture`). Beside the marks of its
//!   legend it has one mark for each step of the window, in their order, in the lane of its worker
//!   and at the height of its number, and no other (`marks_are_steps`).
//! - A cell has a column exactly where a step of the window changes its word or its value
//!   (`columns_are_changes`). It changes its word where it is a step on the cell, and left another
//!   word than it found. It changes its value where a descriptor succeeds at it, and an entry of
//!   that descriptor is for the cell and has another new word than its old one. The picture has the
//!   lines of its title, and then the heads of its lanes and of these columns, in their order, once
//!   or several times, and no others (`heads_are`).
//! - Each decision has a line across all lanes, and an act one of its own look. So has each swap of
//!   a cell to a descriptor that was decided before, and each round that begins there. A step about
//!   another worker's descriptor or mark has a line to the lane of that worker (`helped_worker`).
//!   There is no other line but the lanes and those of the legend (`lines_are`).
//! - `fixed_numbers`: the most steps of a picture; no two lanes and no two moments stand at one
//!   place.
//! - `steps_from`: how many steps there are from a number on, by which a caller can see whether
//!   they are more than `MAX_STEPS`.
//!
//! Where boxes and texts stand, and what is said in them, no contract tells: tests compare parts of
//! pictures, and measure whole ones in a browser.
#![tactic(auto)]

mod boxes;
mod canvas;
mod changes;
mod columns;
mod drawing;
mod frame;
mod history;
mod laws;
mod legend;
mod limits;
mod lists;
mod notices;
mod places;
mod records;
mod rows;
mod sight;
mod spans;
mod words;

pub use drawing::draw;
pub use laws::fixed_numbers;
pub use limits::MAX_STEPS;
pub use records::{Record, Recording, Window, steps_from};
