//! Tests of the command lines, from outside.
//!
//! They stand apart from the code, so that each crate is proved once, and not once more with its
//! tests.
#![tactic(auto)]

#[cfg(test)]
mod keys_line;
#[cfg(test)]
mod names;
#[cfg(test)]
mod pack_line;
#[cfg(test)]
mod plays_line;
#[cfg(test)]
mod set_line;
