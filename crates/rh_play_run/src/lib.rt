//! Plays: workers take turns as a text says, and what comes of it is written.
//!
//! `rhplay` stands on it.
//!
//! Proved:
//!
//! - `run_play`: where it answers `Ok`, the bytes said a play, and what was written is the text of
//!   that play. For each order it has what the turns made and the last one came to; then come the
//!   dump of the cells that the workers made, and what was counted.
//! - Where all workers are finished, these are the dump and the tally of one worker that does all
//!   keys.
//! - A text that says no play is refused by its first fault, and a play that cannot begin by the
//!   first fault of its start.
//! - Want of memory is told at a line of the text, as by `parse_play`; or as the start's, and then
//!   the play can begin. Or it is `Memory`: then the reader is as it was, or the bytes said a play
//!   that can begin.
//! - Nothing is written but by `Ok` and `Write`, and by `Write` a front of the text. `Read` and
//!   `Write` come only where the device's count of failures rose. Of a play's file at most
//!   1,048,577 bytes are taken.
//! - `tell_play`: the same of a text that tells the steps too, each by its line before the line of
//!   its order. Worker, kind, part and words are those of the step that was made. `TooLong` comes
//!   where the play makes more than 1,000,000 steps, of `draw_play` too, and only there.
//! - `draw_play`: where it answers `Ok`, what was written is a picture (`rh_draw`) of the steps
//!   that were made, from a number on, and of the cells at first. A play is refused, and want of
//!   memory told, as by `run_play`. `TooMany` comes only where no number of steps was chosen and
//!   they are more than 2,000, and `NoStep` only where a number beyond 1 was, and no step has it or
//!   a later one.
//! - `steps_stand_between`: such a text is, without the lines of its steps, what the play prints.
//!
//! Of readers and writers whose bytes are not known nothing is said of bytes.
#![tactic(auto)]

mod beginning;
mod draw_fault;
mod drawing;
mod ending;
mod fault;
mod laws;
mod limits;
mod log;
mod orders;
mod reading;
mod resting;
mod run;
mod schedule;
mod tell_fault;
mod title;
mod turns;

pub use draw_fault::DrawFault;
pub use drawing::draw_play;
pub use fault::PlayRunFault;
pub use laws::steps_stand_between;
pub use limits::MAX_TOLD;
pub use log::Telling;
pub use run::{run_play, tell_play};
pub use tell_fault::TellFault;
