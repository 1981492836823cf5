//! The lists that have a name.

use std::io::{self, Read};

/// A list that has a name: a key file, and its number of keys.
#[derive(Drop)]
pub struct KeyList<'a> {
    pub source: Source<'a>,
    pub count: u64,
}

/// Where the key file of a list stands. It is read anew each time.
/// A saved list is a key file in memory, so that every list is read in one way and counted again.
#[derive(Drop)]
pub enum Source<'a> {
    Path(&'a str),
    Memory(Vec<u8>),
}

/// A reader of a list's key file.
#[derive(Drop)]
pub(crate) enum ListReader<'a, R> {
    File(R),
    Memory(&'a [u8]),
}

impl<R: Read> Read for ListReader<'_, R> {
    ghost use Rattle.std.specs.Io.{ReadsAtMost};
    ghost use Rattle.std.specs.Io.KnownBytes.{ReadConsumes};
    ghost use Rattle.rh_operations.specs.KeyLists.{bytes_left};

    ghost remaining = { bytes_left R.remaining };

    fn read(&mut self, buf: &mut [u8]) -> io::Result<usize>
        ensures bound { ReadsAtMost result buf.new }
        ensures bytes { ReadConsumes (bytes_left R.remaining self.old)
            (bytes_left R.remaining self.new) result buf.new }
    {
        match self {
            ListReader::File(reader) => reader.read(buf),
            ListReader::Memory(bytes) => bytes.read(buf),
        }
    }
}
