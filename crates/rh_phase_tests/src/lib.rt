//! Tests of phases by several workers, from outside.
#![tactic(auto)]

#[cfg(test)]
mod gates;
#[cfg(test)]
mod keys;
#[cfg(test)]
mod phases;
#[cfg(test)]
mod runners;
#[cfg(test)]
mod starts;
#[cfg(test)]
mod turns;
