//! The parts into which keys, and lists of them, are split.
//!
//! `rh_splitting` stands on it. That what is made of the parts is what is made of the whole is said
//! in `rh_part_laws`, of any test of keys.
//!
//! Proved:
//!
//! - `part_of`: the part of so many in which a key stands, exactly, and one that there is.
//! - `one_part_each`: each key stands in one part that there is. Of a list that is split each key
//!   stands in its part and in no other one.
//! - `fixed_numbers`: the most parts, and the multiplier of the hash.
//!
//! That the parts are about as large as one another is no law; `tests/split` counts them.
#![tactic(auto)]

mod laws;
mod part;

pub use laws::{fixed_numbers, one_part_each};
pub use part::{MAX_PARTS, part_of};
