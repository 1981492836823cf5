//! A reader that tells how far it is, beside a writer that takes away what was told.

ghost use Rattle.std.specs.Prelude.{◌≡◌, false};
ghost use Rattle.std.specs.Io.{ReadsAtMost, WritesAtMost};
ghost use Rattle.std.specs.Io.KnownBytes.{Keeps, ReadConsumes, WriteAppends};
ghost use Rattle.rh_streams.specs.Shared.{read_beside, written_beside};

use rh_bytes::Progress;
use std::cell::RefCell;
use std::io::{self, ErrorKind, Read, Write};

/// A reader of which it is told how much was read. Who is told is shared with the writer of a
/// `Clearing`, which takes away what was told before it writes.
#[derive(Drop)]
pub struct Followed<'a, R, P> {
    inner: R,
    progress: &'a RefCell<P>,
}

impl<'a, R, P> Followed<'a, R, P> {
    pub fn new(inner: R, progress: &'a RefCell<P>) -> Followed<'a, R, P>
        ensures { read_beside result ≡ inner }
    {
        Followed { inner, progress }
    }
}

impl<R: Read, P: Progress> Read for Followed<'_, R, P> {
    ghost remaining = { λ f. R.remaining (read_beside f) };

    fn read(&mut self, buf: &mut [u8]) -> io::Result<usize>
        ensures bound { ReadsAtMost result buf.new }
        ensures bytes { ReadConsumes (R.remaining (read_beside self.old))
            (R.remaining (read_beside self.new)) result buf.new }
    {
        let outcome = self.inner.read(buf);
        if let Ok(count) = outcome {
            tell_read(self.progress, count);
        }
        outcome
    }
}

/// Tells that so many bytes more were read.
fn tell_read<P: Progress>(progress: &RefCell<P>, bytes: usize) {
    if let Ok(mut told) = progress.try_borrow_mut() {
        told.read(bytes);
    }
}

/// A writer before whose writes it is taken away what was told: it writes by `write_alone`, which
/// asks for that, and nobody else is told anything meanwhile.
#[derive(Drop)]
pub struct Clearing<'a, W, P> {
    inner: W,
    progress: &'a RefCell<P>,
}

impl<'a, W, P> Clearing<'a, W, P> {
    pub fn new(inner: W, progress: &'a RefCell<P>) -> Clearing<'a, W, P>
        ensures { written_beside result ≡ inner }
    {
        Clearing { inner, progress }
    }
}

impl<W: Write, P: Progress> Write for Clearing<'_, W, P> {
    ghost contents = { λ c. W.contents (written_beside c) };

    fn write(&mut self, buf: &[u8]) -> io::Result<usize>
        ensures bound { WritesAtMost result buf.now }
        ensures bytes { WriteAppends (W.contents (written_beside self.old))
            (W.contents (written_beside self.new)) result buf.now }
    {
        let Ok(mut told) = self.progress.try_borrow_mut() else {
            return Err(io::Error::from(ErrorKind::ResourceBusy));
        };
        told.clear();
        write_alone(&*told, &mut self.inner, buf)
    }

    fn flush(&mut self) -> io::Result<()>
        ensures bytes { Keeps (W.contents (written_beside self.old))
            (W.contents (written_beside self.new)) }
    {
        let Ok(mut told) = self.progress.try_borrow_mut() else {
            return Err(io::Error::from(ErrorKind::ResourceBusy));
        };
        told.clear();
        flush_alone(&*told, &mut self.inner)
    }
}

/// Writes where nothing stands of what was told.
fn write_alone<P: Progress, W: Write>(_told: &P, writer: &mut W, buf: &[u8]) -> io::Result<usize>
    requires away { P.stands _told.now ≡ false }
    ensures bound { WritesAtMost result buf.now }
    ensures bytes { WriteAppends (W.contents writer.old) (W.contents writer.new) result buf.now }
{
    writer.write(buf)
}

/// The same of a flush, which may write too.
fn flush_alone<P: Progress, W: Write>(_told: &P, writer: &mut W) -> io::Result<()>
    requires away { P.stands _told.now ≡ false }
    ensures bytes { Keeps (W.contents writer.old) (W.contents writer.new) }
{
    writer.flush()
}
