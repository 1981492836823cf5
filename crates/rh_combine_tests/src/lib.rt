//! Tests of what comes of lists, by one worker and by several, of questions about them, of
//! expressions, of lists at paths, and of lists that are checked, from outside.
//!
//! They stand apart from the code, so that each crate is proved once, and not once more with its
//! tests.
#![tactic(auto)]

#[cfg(test)]
mod checks;
#[cfg(test)]
mod compared;
#[cfg(test)]
mod expressions;
#[cfg(test)]
mod long;
#[cfg(test)]
mod paths;
#[cfg(test)]
mod rows;
#[cfg(test)]
mod selected;
#[cfg(test)]
mod terminal;
#[cfg(test)]
mod written;
