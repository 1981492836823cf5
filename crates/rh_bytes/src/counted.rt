//! A reader or a writer that counts its failures.

ghost use Rattle.std.specs.Prelude.{◌≡◌, length, is_err};
ghost use Rattle.std.specs.Io.{ReadsAtMost, WritesAtMost};
ghost use Rattle.std.specs.Io.KnownBytes.{ReadConsumes, WriteAppends, Keeps};
ghost use Rattle.rh_bytes.specs.Counting.{failures_of, inner_of, failures_after, wrote_nothing};

use std::io;
use std::io::{Read, Write};

/// A reader or a writer of std, and how often it failed: its errors, and the writes that were given
/// bytes and took none. The count stops at the greatest `u64`.
#[derive(Drop)]
pub struct Counted<T> {
    inner: T,
    failures: u64,
}

impl<T> Counted<T> {
    pub fn new(inner: T) -> Counted<T>
        ensures inner { inner_of result ≡ inner }
        ensures failures { failures_of result ≡ 0 }
    {
        Counted { inner, failures: 0 }
    }

    pub fn failures(&self) -> u64
        ensures { result ≡ failures_of self.now }
    {
        self.failures
    }

    pub fn get_ref(&self) -> &T
        ensures { result.now ≡ inner_of self.now }
    {
        &self.inner
    }

    pub fn into_inner(self) -> T
        ensures { result ≡ inner_of self }
    {
        self.inner
    }

    fn count(&mut self, failed: bool)
        ensures counts { failures_of self.new ≡ failures_after failed (failures_of self.old) }
        ensures same_inner { inner_of self.new ≡ inner_of self.old }
    {
        if failed {
            self.failures = self.failures.saturating_add(1);
        }
    }
}

impl<R: Read> Read for Counted<R> {
    ghost remaining = { λ c. R.remaining (inner_of c) };

    fn read(&mut self, buf: &mut [u8]) -> io::Result<usize>
        ensures bound { ReadsAtMost result buf.new }
        ensures bytes { ReadConsumes (R.remaining (inner_of self.old))
            (R.remaining (inner_of self.new)) result buf.new }
        ensures counts { failures_of self.new ≡ failures_after (is_err result)
            (failures_of self.old) }
    {
        let outcome = self.inner.read(buf);
        self.count(outcome.is_err());
        outcome
    }
}

impl<W: Write> Write for Counted<W> {
    ghost contents = { λ c. W.contents (inner_of c) };

    fn write(&mut self, buf: &[u8]) -> io::Result<usize>
        ensures bound { WritesAtMost result buf.now }
        ensures bytes { WriteAppends (W.contents (inner_of self.old))
            (W.contents (inner_of self.new)) result buf.now }
        ensures counts { failures_of self.new
            ≡ failures_after (wrote_nothing (length buf.now) result) (failures_of self.old) }
    {
        let outcome = self.inner.write(buf);
        self.count(match &outcome {
            Ok(n) => *n == 0 && !buf.is_empty(),
            Err(_) => true,
        });
        outcome
    }

    fn flush(&mut self) -> io::Result<()>
        ensures bytes { Keeps (W.contents (inner_of self.old)) (W.contents (inner_of self.new)) }
        ensures counts { failures_of self.new ≡ failures_after (is_err result)
            (failures_of self.old) }
    {
        let outcome = self.inner.flush();
        self.count(outcome.is_err());
        outcome
    }
}
