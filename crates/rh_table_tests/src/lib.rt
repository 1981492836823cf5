//! Tests of the crates that know tables, keys and words, from outside.
//!
//! They stand apart from the code, so that each crate is proved once, and not once more with its
//! tests.
#![tactic(auto)]

#[cfg(test)]
mod acts;
#[cfg(test)]
mod descriptor;
#[cfg(test)]
mod edit;
#[cfg(test)]
mod grow;
#[cfg(test)]
mod layout;
#[cfg(test)]
mod ledger;
#[cfg(test)]
mod probe;
#[cfg(test)]
mod tagword;
