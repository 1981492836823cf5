//! A writer that keeps why it failed last, and notices when nobody reads any more what is written.

ghost use Rattle.std.specs.Prelude.{◌≡◌, ◌↔◌, IfErr, IsTrue, None, OnOk, Some};
ghost use Rattle.std.specs.Io.{WritesAtMost};
ghost use Rattle.std.specs.IoError.{error_kind};
ghost use Rattle.std.specs.declared.io.ErrorKind.TheVariants.{BrokenPipe};
ghost use Rattle.std.specs.Io.KnownBytes.{Keeps, WriteAppends};
ghost use Rattle.rh_cli.specs.Outlet.{inside, last_failure};

use std::io::{self, ErrorKind, Write};

/// A writer, and what the system said of its last failure. Where that was that its reader had gone
/// away, as `head` does after its last line, programs for pipes end without a word.
#[derive(Drop)]
pub struct Outlet<W> {
    inner: W,
    last_failure: Option<ErrorKind>,
}

impl<W> Outlet<W> {
    pub fn new(inner: W) -> Outlet<W>
        ensures inner { inside result ≡ inner }
        ensures fine { last_failure result ≡ None }
    {
        Outlet {
            inner,
            last_failure: None,
        }
    }

    /// What the system said of the last failure.
    pub fn last_failure(&self) -> Option<ErrorKind>
        ensures { result ≡ last_failure self.now }
    {
        self.last_failure
    }

    /// Whether the last failure was that the reader had gone away.
    pub fn is_gone(&self) -> bool
        ensures { IsTrue result ↔ last_failure self.now ≡ Some BrokenPipe }
    {
        match self.last_failure {
            Some(kind) => kind == ErrorKind::BrokenPipe,
            None => false,
        }
    }

    fn note<T>(&mut self, outcome: &io::Result<T>)
        ensures same { inside self.new ≡ inside self.old }
        ensures failed { IfErr outcome.now (λ e. last_failure self.new ≡ Some (error_kind e)) }
        ensures fine { OnOk outcome.now (last_failure self.new ≡ last_failure self.old) }
    {
        if let Err(error) = outcome {
            self.last_failure = Some(error.kind());
        }
    }
}

impl<W: Write> Write for Outlet<W> {
    ghost contents = { λ o. W.contents (inside o) };

    fn write(&mut self, buf: &[u8]) -> io::Result<usize>
        ensures bound { WritesAtMost result buf.now }
        ensures bytes { WriteAppends (W.contents (inside self.old)) (W.contents (inside self.new))
            result buf.now }
        ensures failed { IfErr result (λ e. last_failure self.new ≡ Some (error_kind e)) }
        ensures fine { OnOk result (last_failure self.new ≡ last_failure self.old) }
    {
        let outcome = self.inner.write(buf);
        self.note(&outcome);
        outcome
    }

    fn flush(&mut self) -> io::Result<()>
        ensures bytes { Keeps (W.contents (inside self.old)) (W.contents (inside self.new)) }
        ensures failed { IfErr result (λ e. last_failure self.new ≡ Some (error_kind e)) }
        ensures fine { OnOk result (last_failure self.new ≡ last_failure self.old) }
    {
        let outcome = self.inner.flush();
        self.note(&outcome);
        outcome
    }
}
