//! Tests of key files, snapshots, texts of numbers and lists that are split, from outside.
//!
//! They stand apart from the code, so that each crate is proved once, and not once more with its
//! tests.
#![tactic(auto)]

#[cfg(test)]
mod check;
#[cfg(test)]
mod dump;
#[cfg(test)]
mod excerpts;
#[cfg(test)]
mod failures;
#[cfg(test)]
mod files;
#[cfg(test)]
mod listed;
#[cfg(test)]
mod lists;
#[cfg(test)]
mod numbers;
#[cfg(test)]
mod packing;
#[cfg(test)]
mod skipping;
#[cfg(test)]
mod snapshot;
#[cfg(test)]
mod splitting;
