//! Tagged words: the numbers that stand in the words of a table shared by several workers, and what
//! they mean.
//!
//! The two lowest bits of a word tell a value from the reference of a mark or a descriptor.
//! `rh_words` and all crates of the shared table stand on it.
//!
//! ```text
//! pack(Word::Key(17))                              // 72: the cell holds 18, and the tag is 0
//! unpack(6)                                        // Some(Word::Desc { worker: 0, number: 1 })
//! pack_control(5, State::Failed { decider: 3 })    // 1347: 5 * 256 + 64 + 3
//! ```
//!
//! Proved:
//!
//! - `pack`, `unpack`, `pack_control` and `unpack_control`: words and controls have exactly their
//!   numbers. What is packed is unpacked to the same, and the other way round.
//! - `unpack` is `None` exactly for the one tag that no word has. `unpack_control` is `None`
//!   exactly where the low byte, 4 to 63 or above 127, is no state.
//! - `plain_word`, `plain_value`: the word of what a cell holds, exactly, and back. `plain_words`:
//!   those of cells, in order. `is_decided` is exact.
//! - `one_word`, `one_control`: no two words have one number, and no two controls.
//! - `fixed_numbers`: the tags, the states and the widths of their parts, each by its value.
#![tactic(auto)]

mod control;
mod laws;
mod limits;
mod word;

pub use control::{State, pack_control, unpack_control};
pub use laws::{fixed_numbers, one_control, one_word};
pub use limits::{NUMBER_BITS, STATE_BITS, WORKER_BITS};
pub use word::{Word, pack, plain_value, plain_word, plain_words, unpack};
