//! What a phase does: its kinds, its tally, and its meaning key by key.
//!
//! A phase is a list of keys that are all inserted, all removed or all looked up. What it means is
//! a function of the set and the list, and names no worker. `rh_acts`, `rh_runner` and `rh_report`
//! stand on it.
//!
//! ```text
//! joined(first, second)   // Some: the two tallies added field by field
//! ```
//!
//! Proved:
//!
//! - `joined`: tallies are added field by field; `None` exactly where a sum is too large.
//! - `phase_in_parts`: a phase over a list is the phases over its parts, one after the other.
#![tactic(auto)]

mod laws;
mod tally;

pub use laws::phase_in_parts;
pub use tally::{Kind, NONE_YET, Tally, joined, tally_by};
