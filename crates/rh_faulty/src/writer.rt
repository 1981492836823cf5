//! A writer into memory that fails once.

ghost use Rattle.std.specs.Prelude.{◌≡◌, ◌≢◌, ◌-◌, [], length, Some, IfErr, IfOk, IsOk};
ghost use Rattle.std.specs.Io.{WritesAtMost};
ghost use Rattle.std.specs.Io.KnownBytes.{WriteAppends, Keeps};
ghost use Rattle.std.specs.IoError.{error_kind};
ghost use Rattle.rh_faulty.specs.Streams.{text_of, refuses_in, refusal_of, Refuses};

use std::alloc::Global;
use std::io::{self, ErrorKind, Write};

/// How a `FaultyWriter` fails.
#[derive(Clone, Copy, Debug, PartialEq, Eq)]
pub enum Refusal {
    /// An interruption, which std's own loops would try again.
    Error,
    /// The write answers that it took no byte.
    TakesNothing,
}

/// A writer into memory. One of its writes fails once; every other write takes all bytes, where
/// memory lasts.
#[derive(Drop)]
pub struct FaultyWriter {
    text: Vec<u8>,
    refuses_in: u64,
    refusal: Refusal,
}

impl FaultyWriter {
    /// The write of this number fails, counted from 1. At 0 none does.
    pub fn new(alloc: Global, fails_at: u64, refusal: Refusal) -> FaultyWriter
        ensures text { text_of result ≡ [] }
        ensures refuses_in { refuses_in result ≡ fails_at }
        ensures refusal { refusal_of result ≡ refusal }
    {
        FaultyWriter {
            text: Vec::new(alloc),
            refuses_in: fails_at,
            refusal,
        }
    }

    /// What was written.
    pub fn text(&self) -> &[u8]
        ensures { result.now ≡ text_of self.now }
    {
        &self.text
    }
}

impl Write for FaultyWriter {
    ghost contents = { λ w. Some (text_of w) };

    fn write(&mut self, buf: &[u8]) -> io::Result<usize>
        ensures bound { WritesAtMost result buf.now }
        ensures bytes { WriteAppends (Some (text_of self.old)) (Some (text_of self.new))
            result buf.now }
        ensures refuses { refuses_in self.old ≡ 1 → Refuses (refusal_of self.old) result }
        ensures takes_all { refuses_in self.old ≢ 1 → IfOk result (λ n. n ≡ length buf.now) }
        ensures no_memory { refuses_in self.old ≢ 1 →
            IfErr result (λ e. error_kind e ≡ ErrorKind.OutOfMemory) }
        ensures nearer { refuses_in self.new ≡ refuses_in self.old - 1 }
        ensures same_refusal { refusal_of self.new ≡ refusal_of self.old }
    {
        let refused = self.refuses_in == 1;
        self.refuses_in = self.refuses_in.saturating_sub(1);
        if refused {
            return match self.refusal {
                Refusal::Error => Err(io::Error::from(ErrorKind::Interrupted)),
                Refusal::TakesNothing => Ok(0),
            };
        }
        self.text.write(buf)
    }

    fn flush(&mut self) -> io::Result<()>
        ensures bytes { Keeps (Some (text_of self.old)) (Some (text_of self.new)) }
        ensures ok { IsOk result }
        ensures unchanged { self.new ≡ self.old }
    {
        Ok(())
    }
}
