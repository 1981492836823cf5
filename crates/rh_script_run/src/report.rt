//! What came of a run.

/// What came of a script that was carried out: its number of commands, how many keys are held, and
/// the bits of their table.
#[derive(Clone, Copy, Debug, PartialEq, Eq)]
pub struct Report {
    pub commands: u64,
    pub held: u64,
    pub bits: u32,
}
