//! A writer with a buffer, whose lines are written at once.

ghost use Rattle.std.specs.Io.{WritesAtMost};
ghost use Rattle.std.specs.Io.KnownBytes.{Keeps, WriteAppends};
ghost use Rattle.rh_streams.specs.ByLine.{lines_to};

use std::io::{self, Write};

/// A writer with a buffer that is flushed behind each line, where that is asked for: so a line is
/// seen on a terminal once it is made, and the cursor rests at the head of the next one.
#[derive(Drop)]
pub struct ByLine<W> {
    inner: W,
    is_asked: bool,
}

impl<W> ByLine<W> {
    ghost use Rattle.std.specs.Prelude.{◌≡◌};

    pub fn new(inner: W, is_asked: bool) -> ByLine<W>
        ensures { lines_to result ≡ inner }
    {
        ByLine { inner, is_asked }
    }

    pub fn into_inner(self) -> W
        ensures { result ≡ lines_to self }
    {
        self.inner
    }
}

impl<W: Write> Write for ByLine<W> {
    ghost contents = { λ b. W.contents (lines_to b) };

    /// A flush that fails here leaves its bytes in the buffer: so it is told by the next one.
    fn write(&mut self, buf: &[u8]) -> io::Result<usize>
        ensures bound { WritesAtMost result buf.now }
        ensures bytes { WriteAppends (W.contents (lines_to self.old))
            (W.contents (lines_to self.new)) result buf.now }
    {
        let outcome = self.inner.write(buf);
        if self.is_asked && buf.last() == Some(&b'\n') {
            let _ = self.inner.flush();
        }
        outcome
    }

    fn flush(&mut self) -> io::Result<()>
        ensures bytes { Keeps (W.contents (lines_to self.old)) (W.contents (lines_to self.new)) }
    {
        self.inner.flush()
    }
}
