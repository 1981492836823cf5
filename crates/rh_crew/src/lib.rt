//! The workers of a table that threads share, each at work on a thread of its own.
//!
//! `rh_kcas_tests` and the program that `benchmarks/kcas` times stand on it. A phase has a fork of
//! its own, as it has to tell a refused start.
//!
//! Proved: after `all_work` the seat has the workers that it had, and each is at rest. `round` is
//! this, and a wipe after it, so that another round may begin. What each worker does is the
//! caller's, and no contract says how often it is called to work.
//!
//! That two of them work at once is neither proved nor tested here.
#![tactic(auto)]

mod work;

pub use work::{Work, all_work, round, round_of};
