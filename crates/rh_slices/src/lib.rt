//! What comes of lists of numbers that the caller has in memory, put where the caller has room.
//!
//! `rh_c` stands on it.
//!
//! ```text
//! let mut into = [0; 4];
//! combine_into(alloc, How::Union, &[&[1, 9], &[9, 4]], &mut into)?    // 3: 1, 4, 9
//! ```
//!
//! Proved: `combine_into` puts the rising numbers that come of the lists at the front of the slice,
//! each once, and leaves what stands behind them. Else nothing is put, and why is told by name: the
//! first number that is no key, with its list and its place; how many numbers there are, where they
//! are more than the slice takes; or want of memory. `cut_to` puts the numbers of a list that lie
//! in a range, in the list's order, or nothing where they are more than the slice takes.
#![tactic(auto)]

mod combining;
mod range;
mod refused;

pub use combining::combine_into;
pub use range::cut_to;
pub use refused::Refused;
