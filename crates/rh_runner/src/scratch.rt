//! The table that a command works on.

/// A table that is worked on, while the set that it is made of stays as it is.
#[derive(Drop)]
pub struct Scratch {
    pub bits: u32,
    pub cells: Vec<u64>,
}
