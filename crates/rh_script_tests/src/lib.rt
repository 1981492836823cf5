//! Tests of scripts, from their text to what they leave: their files, runners, operations and
//! reports, from outside.
//!
//! They stand apart from the code, so that each crate is proved once, and not once more with its
//! tests.
#![tactic(auto)]

#[cfg(test)]
mod operations;
#[cfg(test)]
mod planner;
#[cfg(test)]
mod report;
#[cfg(test)]
mod runner;
#[cfg(test)]
mod script;
#[cfg(test)]
mod shelf;
#[cfg(test)]
mod single;
