//! What a snapshot holds.

/// A table as a snapshot holds it. The cells are a layout of their keys with a free cell: 0 is an
/// empty cell, else the key plus 1, in snapshots of either version.
#[derive(Debug, Drop)]
pub struct Snapshot {
    /// The table has 2 to the power of its bits cells.
    pub bits: u32,
    /// The number of full cells.
    pub count: u64,
    pub cells: Vec<u64>,
    /// The SHA-256 of the bytes before it.
    pub seal: [u8; 32],
}
