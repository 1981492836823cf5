//! How much is told of a play.

/// Of a play of more steps none is told, and no picture is made. What is told of a step is held in
/// memory up to the end of the play: 40 to 100 bytes of text, or as much of a record.
pub const MAX_TOLD: u64 = 1_000_000;
