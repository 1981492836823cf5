//! Work that is shared out to threads, while the thread that starts them waits.
//!
//! `rh_lists`, `rh_cutting` and `rh_combine_workers` share their work so, each to a `Team`: so many
//! workers, what starts their threads, and where what they make is held.
//!
//! The calls of std have the same contracts, and there the caller works too. But Linux puts some
//! new threads on the processor of the thread that starts them. Where that goes on working, both
//! share it for some milliseconds, while another processor idles: four shares of six milliseconds
//! then took eleven on four processors, where they take seven if the callers wait.
//!
//! Proved: the results are those of the calls, in their order. Where no thread can be started, the
//! caller does the work itself.
#![tactic(auto)]

mod mapping;
mod pair;
mod team;

pub use mapping::map_indices;
pub use pair::both;
pub use team::{Team, Workers};
