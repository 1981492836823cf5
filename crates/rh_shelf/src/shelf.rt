//! What a shelf is.

ghost use Rattle.std.specs.Prelude.{◌≡◌, ℕ, Option};
ghost use Rattle.rh_shelf.specs.Shelf.{Files, GivesFile, TakesFile, uncounted};
ghost use Rattle.rh_shelf.specs.declared.shelf.ShelfFault.TheVariants.{Memory};

use std::alloc::{AllocError, AllocFailed, Global};
use std::io::Read;
use thiserror::Error;

/// Why a file was not given or taken.
#[derive(Clone, Copy, Debug, PartialEq, Eq, Error)]
pub enum ShelfFault {
    /// There is no file at the path, or it cannot be opened.
    #[error("cannot open the file")]
    Missing,
    #[error("cannot write the file")]
    Write,
    #[error("out of memory")]
    Memory,
}

impl From<AllocError> for ShelfFault {
    ghost from_gives = { λ _ fault. fault ≡ Memory };

    fn from(_error: AllocError) -> ShelfFault {
        ShelfFault::Memory
    }
}

impl<T: Drop> From<AllocFailed<T>> for ShelfFault {
    ghost from_gives = { λ _ fault. fault ≡ Memory };

    fn from(_error: AllocFailed<T>) -> ShelfFault {
        ShelfFault::Memory
    }
}

/// Files by their paths.
pub trait Shelf {
    type Reader: Read + Drop;

    /// The bytes of each path, where the readers tell theirs.
    ghost files: { Self → Option Files };

    /// How often the shelf failed, want of memory among that. The count stops at the greatest
    /// `u64`.
    ghost failures: { Self → ℕ };

    /// A reader of the file's bytes, from the first on. Never `Write`.
    fn fetch(&mut self, alloc: Global, path: &str) -> Result<Self::Reader, ShelfFault>
        ensures { GivesFile Self.Reader.remaining (uncounted files failures self.old)
            (uncounted files failures self.new) path.now result };

    /// Puts the bytes at the path, in place of what stood there. After a fault that path alone is
    /// in doubt. Never `Missing`.
    fn put(&mut self, alloc: Global, path: &str, bytes: &[u8]) -> Result<(), ShelfFault>
        ensures { TakesFile (uncounted files failures self.old)
            (uncounted files failures self.new) path.now bytes.now result };
}
