//! Where a command reads: files, and standard input where it is named `-`.

ghost use Rattle.std.specs.Io.{ReadsAtMost};
ghost use Rattle.std.specs.Io.KnownBytes.{ReadConsumes};
ghost use Rattle.rh_shelf.specs.Kinds.{failed_files};
ghost use Rattle.rh_pack_program.specs.Places.{files_of, remaining_of};

use rh_bytes::Progress;
use rh_lists::INPUT;
use rh_shelf::{FileShelf, Shelf, ShelfFault};
use rh_streams::Followed;
use std::alloc::Global;
use std::cell::RefCell;
use std::fs::Files;
use std::io::{self, BufReader, Read};

/// The reader of a file, or of standard input.
#[derive(Drop)]
pub enum Opened<F, I> {
    File(F),
    Input(I),
}

impl<F: Read, I: Read> Read for Opened<F, I> {
    ghost remaining = { remaining_of F.remaining I.remaining };

    fn read(&mut self, buf: &mut [u8]) -> io::Result<usize>
        ensures bound { ReadsAtMost result buf.new }
        ensures bytes { ReadConsumes (remaining_of F.remaining I.remaining self.old)
            (remaining_of F.remaining I.remaining self.new) result buf.new }
    {
        match self {
            Opened::File(file) => file.read(buf),
            Opened::Input(input) => input.read(buf),
        }
    }
}

/// The files of the current folder, and standard input as `-`. It is told how much is read of them.
#[derive(Drop)]
pub struct Places<'a, T, P> {
    rt: &'a T,
    files: FileShelf<'a, T>,
    progress: &'a RefCell<P>,
}

impl<'a, T, P> Places<'a, T, P> {
    pub fn new(rt: &'a T, progress: &'a RefCell<P>) -> Places<'a, T, P> {
        Places {
            rt,
            files: FileShelf::new(rt),
            progress,
        }
    }
}

impl<'a, T: Files + Input, P: Progress> Shelf for Places<'a, T, P> {
    type Reader = Followed<'a, Opened<BufReader<T::File>, T::Reader>, P>;

    ghost use Rattle.std.specs.Prelude.{None};

    ghost files = { λ _. None };

    ghost failures = { λ s. failed_files (files_of s) };

    fn fetch(
        &mut self,
        alloc: Global,
        path: &str,
    ) -> Result<Followed<'a, Opened<BufReader<T::File>, T::Reader>, P>, ShelfFault> {
        if path == INPUT {
            let input = Opened::Input(self.rt.reader());
            return Ok(Followed::new(input, self.progress));
        }
        match self.files.fetch(alloc, path) {
            Ok(file) => Ok(Followed::new(Opened::File(file), self.progress)),
            Err(fault) => Err(fault),
        }
    }

    fn put(&mut self, alloc: Global, path: &str, bytes: &[u8]) -> Result<(), ShelfFault> {
        self.files.put(alloc, path, bytes)
    }
}
