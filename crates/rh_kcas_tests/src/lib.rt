//! Tests of the swap of several cells of a table that threads share, from outside.
//!
//! They stand apart from the code, so that each crate is proved once, and not once more with its
//! tests.
#![tactic(auto)]

#[cfg(test)]
mod claims;
#[cfg(test)]
mod crews;
#[cfg(test)]
mod halfway;
#[cfg(test)]
mod helping;
#[cfg(test)]
mod marks;
#[cfg(test)]
mod peeks;
#[cfg(test)]
mod random;
#[cfg(test)]
mod stale;
#[cfg(test)]
mod stress;
#[cfg(test)]
mod swaps;
#[cfg(test)]
mod tables;
#[cfg(test)]
mod threads;
#[cfg(test)]
mod working;
