//! Calls of the public crates by their paths, with their signatures and their conditions: a
//! function for each, which the gate proves. So no path, no type and no condition of these changes
//! unseen. Laws and some calls have none here. What the calls promise is held where they stand.
//!
//! `variants` matches enums by their variants and no other, and `fields` builds structs: so a
//! variant or a field more is seen, and one less. `own` has what a caller implements itself, with
//! no more than its trait asks for.
#![tactic(auto)]

#[cfg(test)]
mod called;
pub mod descriptor;
pub mod edit;
pub mod files;
pub mod grow;
pub mod kcas;
pub mod layout;
pub mod ledger;
pub mod own;
pub mod phase;
pub mod planner;
pub mod player;
pub mod probe;
pub mod programs;
pub mod rdcss;
pub mod tagword;
