//! Tests of plays: their texts and reports, workers and players step by step, what is traced and
//! what is drawn, from outside.
//!
//! They stand apart from the code, so that each crate is proved once, and not once more with its
//! tests.
#![tactic(auto)]

#[cfg(test)]
mod drawing;
#[cfg(test)]
mod pictures;
#[cfg(test)]
mod play;
#[cfg(test)]
mod play_report;
#[cfg(test)]
mod play_run;
#[cfg(test)]
mod player;
#[cfg(test)]
mod trace;
#[cfg(test)]
mod tracing;
#[cfg(test)]
mod worker;
