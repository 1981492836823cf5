//! The versions of the snapshot.

ghost use Rattle.std.specs.Prelude.{◌≡◌};
ghost use Rattle.rh_snapshot.specs.Snapshot.{snap_magic, most_bits};
ghost use Rattle.rh_snapshot.specs.Reading.{are_bits};

use rh_layout::{MAX_BITS, MIN_BITS};

/// The greatest size of a table in the first version, in bits.
const FIRST_MAX_BITS: u32 = 16;

/// The versions of the snapshot. The first has the keys themselves, with 0 for an empty cell, so it
/// knows no key 0; the second has cells as they are handed between crates.
#[derive(Clone, Copy, Debug, PartialEq, Eq)]
pub enum Version {
    First,
    Second,
}

impl Version {
    /// The first four bytes.
    pub(crate) fn magic(self) -> [u8; 4]
        ensures { result ≡ snap_magic self }
    {
        match self {
            Version::First => *b"RHS1",
            Version::Second => *b"RHS2",
        }
    }

    fn most_bits(self) -> u32
        ensures { result ≡ most_bits self }
    {
        match self {
            Version::First => FIRST_MAX_BITS,
            Version::Second => MAX_BITS,
        }
    }

    /// Whether a table of this size may be in a snapshot of this version.
    pub(crate) fn allows(self, bits: u32) -> bool
        ensures { result ≡ are_bits self bits }
    {
        MIN_BITS <= bits && bits <= self.most_bits()
    }
}
