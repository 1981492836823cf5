//! Who lends files, and is given their readers back.

ghost use Rattle.std.specs.Prelude.{◌≡◌, ◌≢◌};
ghost use Rattle.rh_bytes.specs.Counting.{Rose, failures_of};
ghost use Rattle.rh_shelf.specs.Kinds.{counted, reads_of, shelf_of};
ghost use Rattle.rh_shelf.specs.Shelf.{GivesFile, ShelfState, TakesFile, uncounted};

use crate::shelf::{Shelf, ShelfFault};
use rh_bytes::Counted;
use std::alloc::Global;
use std::io::Read;

/// A shelf that is shown the reader of a file of which a read failed. So a failed read is told only
/// where there was one.
///
/// Each `Shelf` is one that counts none of these: its count is at its end from the beginning, and
/// so nothing is known of them. `CountedShelf` counts them.
pub trait Lender {
    type Reader: Read + Drop;

    /// What is known of it: the files, its failures, and how many failed reads it was shown.
    ghost state: { Self → ShelfState };

    /// As `fetch` of a `Shelf`.
    fn lend(&mut self, alloc: Global, path: &str) -> Result<Self::Reader, ShelfFault>
        ensures { GivesFile Self.Reader.remaining (state self.old) (state self.new)
            path.now result };

    /// As `put` of a `Shelf`.
    fn store(&mut self, alloc: Global, path: &str, bytes: &[u8]) -> Result<(), ShelfFault>
        ensures { TakesFile (state self.old) (state self.new) path.now bytes.now result };

    /// Is shown a reader, and counts it where a read of it failed.
    fn blame<R>(&mut self, reader: &Counted<R>)
        ensures failed { failures_of reader.now ≢ 0 →
            Rose (state self.old).failed_reads (state self.new).failed_reads }
        ensures fine { failures_of reader.now ≡ 0 → state self.new ≡ state self.old }
        ensures same_failures { (state self.new).failures ≡ (state self.old).failures }
        ensures same_files { (state self.new).files ≡ (state self.old).files };
}

impl<S: Shelf> Lender for S {
    type Reader = S::Reader;

    ghost state = { uncounted S.files S.failures };

    fn lend(&mut self, alloc: Global, path: &str) -> Result<S::Reader, ShelfFault> {
        self.fetch(alloc, path)
    }

    fn store(&mut self, alloc: Global, path: &str, bytes: &[u8]) -> Result<(), ShelfFault> {
        self.put(alloc, path, bytes)
    }

    fn blame<R>(&mut self, _reader: &Counted<R>) {}
}

/// A shelf, and how many readers of which a read failed it was shown.
#[derive(Drop)]
pub struct CountedShelf<S> {
    shelf: S,
    failed_reads: u64,
}

impl<S> CountedShelf<S> {
    /// No read failed yet.
    pub fn new(shelf: S) -> CountedShelf<S>
        ensures shelf { shelf_of result ≡ shelf }
        ensures none { reads_of result ≡ 0 }
    {
        let failed_reads = 0;
        CountedShelf {
            shelf,
            failed_reads,
        }
    }

    pub fn failed_reads(&self) -> u64
        ensures { result ≡ reads_of self.now }
    {
        self.failed_reads
    }

    pub fn get_ref(&self) -> &S
        ensures { result.now ≡ shelf_of self.now }
    {
        &self.shelf
    }
}

impl<S: Shelf> Lender for CountedShelf<S> {
    type Reader = S::Reader;

    ghost state = { counted S.files S.failures };

    fn lend(&mut self, alloc: Global, path: &str) -> Result<S::Reader, ShelfFault> {
        self.shelf.fetch(alloc, path)
    }

    fn store(&mut self, alloc: Global, path: &str, bytes: &[u8]) -> Result<(), ShelfFault> {
        self.shelf.put(alloc, path, bytes)
    }

    fn blame<R>(&mut self, reader: &Counted<R>) {
        if reader.failures() > 0 {
            self.failed_reads = self.failed_reads.saturating_add(1);
        }
    }
}
