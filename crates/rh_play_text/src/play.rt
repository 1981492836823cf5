//! Plays that were read.

ghost use Rattle.std.specs.Prelude.{◌≤◌};
ghost use Rattle.rh_play_text.specs.declared.limits.TheConstants.{MIN_BITS, MAX_BITS, MAX_PLAY_ROOM};

use crate::schedule::Order;
use rh_ledger::Kind;

/// The bits of the table: it has two to the power of the bits cells.
#[derive(Clone, Copy, Debug, PartialEq, Eq)]
pub struct Bits {
    pub value: u64,
    ghost least: { MIN_BITS ≤ value },
    ghost most: { value ≤ MAX_BITS },
}

/// How many descriptors and marks each worker may number in a round.
#[derive(Clone, Copy, Debug, PartialEq, Eq)]
pub struct PlayRooms {
    pub descriptors: u64,
    pub marks: u64,
    ghost some_descriptors: { 1 ≤ descriptors },
    ghost most_descriptors: { descriptors ≤ MAX_PLAY_ROOM },
    ghost some_marks: { 1 ≤ marks },
    ghost most_marks: { marks ≤ MAX_PLAY_ROOM },
}

/// The keys of the workers.
#[derive(Debug, PartialEq, Eq, Drop)]
pub enum Work {
    /// The keys of each worker, in order.
    Pieces(Vec<Vec<u64>>),
    /// Keys that so many workers share.
    Share { workers: u64, keys: Vec<u64> },
}

/// A play. That its numbers are keys and numbers of workers is not tested yet.
#[derive(Debug, PartialEq, Eq, Drop)]
pub struct Play {
    pub kind: Kind,
    pub bits: Bits,
    /// The keys that the table holds at first.
    pub held: Vec<u64>,
    /// `None` stands for the usual rooms.
    pub rooms: Option<PlayRooms>,
    pub work: Work,
    pub schedule: Vec<Order>,
}
