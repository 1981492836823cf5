//! The parts of a word and their sizes, and the numbers of controls, each said here and nowhere
//! else.

/// How many of the lowest bits of a word are its tag.
pub const TAG_BITS: u32 = 2;

/// The tag of a word that says what a cell holds.
pub const PLAIN: u64 = 0;

/// The tag of a word that refers to a mark.
pub const MARK: u64 = 1;

/// The tag of a word that refers to a descriptor.
pub const DESC: u64 = 2;

/// How many bits of a word say whose mark or descriptor is meant.
pub const WORKER_BITS: u32 = 6;

/// How many bits of a word say which of a worker's marks or descriptors is meant.
pub const NUMBER_BITS: u32 = 56;

/// How many of the lowest bits of a control say its state. Those above are its serial number.
pub const STATE_BITS: u32 = 8;

/// The number of `State::Unused`.
pub const UNUSED: u64 = 0;

/// The number of `State::Undecided`.
pub const UNDECIDED: u64 = 1;

/// The number of `State::Succeeded`.
pub const SUCCEEDED: u64 = 2;

/// The number of `State::Withdrawn`.
pub const WITHDRAWN: u64 = 3;

/// The number of `State::Failed` as worker 0 decided it. Those of the other workers follow it.
pub const FAILED: u64 = 64;
