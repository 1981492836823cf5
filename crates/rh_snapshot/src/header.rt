//! What a snapshot begins with, and the beginning of its seal.

ghost use Rattle.sha2.specs.Hashers.{Holds256};
ghost use Rattle.rh_layout.specs.Key.{IsBits};
ghost use Rattle.rh_snapshot.specs.Snapshot.{spelled_header};

use crate::version::Version;
use sha2::{Digest, Sha256};

/// The header of a snapshot: its version, the bits of the table and the number of full cells.
#[derive(Clone, Copy)]
pub(crate) struct Header {
    pub version: Version,
    pub bits: u32,
    pub count: u64,
}

impl Header {
    /// A hasher of the bytes of the header.
    pub(crate) fn hasher(self) -> Sha256
        requires { IsBits self.bits }
        ensures { Holds256 result (spelled_header self) }
    {
        let mut hasher = Sha256::new();
        hasher.update(self.version.magic());
        hasher.update([self.bits as u8]);
        hasher.update(self.count.to_be_bytes());
        hasher
    }
}
