//! The files of the current folder, as a shelf.

ghost use Rattle.std.specs.Prelude.{◌≡◌, ◌⊎◌, None, Some};
ghost use Rattle.std.specs.IoError.{error_kind};
ghost use Rattle.rh_bytes.specs.Counting.{Rose};
ghost use Rattle.rh_shelf.specs.Kinds.{failed_files, last_failure};

use crate::beside::create_beside;
use crate::place::check_place;
use crate::shelf::{Shelf, ShelfFault};
use std::alloc::Global;
use std::fs::{self, Files, OpenFile};
use std::io::{self, BufReader, ErrorKind, Write};

/// Real files: a path is one of the system's, from the current folder on. No contract tells what
/// bytes stand there; the files that could not be opened or written are counted.
#[derive(Drop)]
pub struct FileShelf<'a, F> {
    files: &'a F,
    failures: u64,
    last_failure: Option<ErrorKind>,
}

impl<'a, F> FileShelf<'a, F> {
    /// A shelf over these files, which has not failed yet.
    pub fn new(files: &'a F) -> FileShelf<'a, F>
        ensures none { failed_files result ≡ 0 }
        ensures no_failure { last_failure result ≡ None }
    {
        FileShelf {
            files,
            failures: 0,
            last_failure: None,
        }
    }

    /// What the system said of the last file that could not be opened or written.
    pub fn last_failure(&self) -> Option<ErrorKind>
        ensures { result ≡ last_failure self.now }
    {
        self.last_failure
    }
}

impl<F> FileShelf<'_, F> {
    /// Want of memory, or else this fault. It is counted.
    fn fault_of(&mut self, error: &io::Error, fault: ShelfFault) -> ShelfFault
        ensures told { (result ≡ ShelfFault.Memory) ⊎ (result ≡ fault) }
        ensures counted { Rose self.old.failures self.new.failures }
        ensures kept { last_failure self.new ≡ Some (error_kind error.now) }
    {
        self.last_failure = Some(error.kind());
        self.failures = self.failures.saturating_add(1);
        if error.kind() == ErrorKind::OutOfMemory {
            return ShelfFault::Memory;
        }
        fault
    }
}

impl<F: Files> Shelf for FileShelf<'_, F> {
    type Reader = BufReader<F::File>;

    ghost use Rattle.std.specs.Prelude.{None};

    ghost files = { λ _. None };

    ghost failures = { failed_files };

    fn fetch(&mut self, alloc: Global, path: &str) -> Result<BufReader<F::File>, ShelfFault> {
        let opened = fs::open(self.files, path);
        match opened.and_then(|file| BufReader::new(alloc, file)) {
            Ok(reader) => Ok(reader),
            Err(error) => Err(self.fault_of(&error, ShelfFault::Missing)),
        }
    }

    /// The bytes are written to a new file beside the path, which then takes its place: a run that
    /// is cut leaves there what stood there before. No other file is touched. A link to a plain file
    /// is replaced, and not what it leads to; what else is no plain file stays.
    fn put(&mut self, alloc: Global, path: &str, bytes: &[u8]) -> Result<(), ShelfFault> {
        match put_whole(alloc, self.files, path, bytes) {
            Ok(()) => Ok(()),
            Err(error) => Err(self.fault_of(&error, ShelfFault::Write)),
        }
    }
}

/// Where it fails, the new file is removed again, as far as that can be done.
fn put_whole<F: Files>(alloc: Global, files: &F, path: &str, bytes: &[u8]) -> io::Result<()> {
    check_place(alloc, files, path)?;
    let (file, beside) = create_beside(alloc, files, path)?;
    let written = write_whole(file, bytes).and_then(|()| fs::rename(files, &beside, path));
    if written.is_err() {
        let _ = fs::remove_file(files, &beside);
    }
    written
}

/// The bytes are on the disk once this is done.
fn write_whole<T: Write + OpenFile + Drop>(mut file: T, bytes: &[u8]) -> io::Result<()> {
    file.write_all(bytes)?;
    file.sync_all()
}
