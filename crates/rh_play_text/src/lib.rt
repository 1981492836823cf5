//! Plays as texts: the text that says how workers take turns, read to its values, and the lines
//! that a play prints.
//!
//! `rh_trace`, `rh_svg`, `rh_draw` and `rh_play_run` stand on it. It knows no player.
//!
//! Proved:
//!
//! - `parse_play`: a text is read to the play that its lines say, or is refused by its first fault,
//!   or for want of memory.
//! - Want of memory stands at one of the text's lines, before which no line has a fault, and is
//!   never told of a text that is too long.
//! - The bits and rooms of a play lie in their ranges. `fixed_numbers`: the limits of a text and of
//!   its numbers, each by its value.
//! - `push_turn` and its like: the text grew by exactly the line, or, where memory was refused, it
//!   is as it was. `kind_word`: the word of a kind of step, which a schedule reads as that kind
//!   again.
#![tactic(auto)]

mod appending;
mod draft;
mod endings;
mod fault;
mod laws;
mod limits;
mod line;
mod lines;
mod numbers;
mod play;
mod reading;
mod schedule;
mod verb;

pub use appending::push_texts;
pub use endings::{Last, Rest, kind_word};
pub use fault::{PlayTextFault, PlayTextKind};
pub use laws::fixed_numbers;
pub use limits::{MAX_BITS, MAX_PLAY_ROOM, MAX_TEXT_BYTES, MAX_TURNS, MIN_BITS};
pub use lines::{push_end, push_raw, push_rest, push_round, push_tally, push_turn, push_until};
pub use play::{Bits, Play, PlayRooms, Work};
pub use reading::parse_play;
pub use schedule::Order;
