//! A reader over memory that fails once.

ghost use Rattle.std.specs.Prelude.{◌≡◌, ◌≢◌, ◌-◌, IsErr, IsOk};
ghost use Rattle.std.specs.Io.{ReadsAtMost};
ghost use Rattle.std.specs.Io.KnownBytes.{ReadConsumes};
ghost use Rattle.rh_faulty.specs.Streams.{unread_of, fails_in};

use std::io::{self, AsBytes, Cursor, ErrorKind, Read};

/// A reader over bytes in memory. One of its calls fails once, with an interruption, which std's
/// own loops would try again; every other call reads on.
/// So a call that leant on such a loop would pass over the failure, and a test would show it. How
/// many bytes a call takes is not said: the reader of std below does not promise it.
#[derive(Drop)]
pub struct FaultyReader<T> {
    bytes: Cursor<T>,
    fails_in: u64,
}

impl<T: AsBytes> FaultyReader<T> {
    /// The call of this number fails, counted from 1. At 0 none does.
    pub fn new(bytes: T, fails_at: u64) -> FaultyReader<T>
        ensures rest { unread_of T.bytes result ≡ T.bytes bytes }
        ensures fails_in { fails_in result ≡ fails_at }
    {
        FaultyReader {
            bytes: Cursor::new(bytes),
            fails_in: fails_at,
        }
    }
}

impl<T: AsBytes> Read for FaultyReader<T> {
    ghost remaining = { unread_of T.bytes };

    fn read(&mut self, buf: &mut [u8]) -> io::Result<usize>
        ensures bound { ReadsAtMost result buf.new }
        ensures bytes { ReadConsumes (unread_of T.bytes self.old) (unread_of T.bytes self.new)
            result buf.new }
        ensures fails { fails_in self.old ≡ 1 → IsErr result }
        ensures reads { fails_in self.old ≢ 1 → IsOk result }
        ensures nearer { fails_in self.new ≡ fails_in self.old - 1 }
    {
        let fails = self.fails_in == 1;
        self.fails_in = self.fails_in.saturating_sub(1);
        if fails {
            return Err(io::Error::from(ErrorKind::Interrupted));
        }
        self.bytes.read(buf)
    }
}
