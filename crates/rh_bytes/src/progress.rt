//! How far long work is.

ghost use Rattle.std.specs.Prelude.{◌≡◌, Bool, false};

/// Who is told how far long work is. What was told may stand on a terminal, and has to be taken
/// away before anything else is written there.
pub trait Progress {
    /// Whether what was told may stand there.
    ghost stands: { Self → Bool };

    /// So many bytes more were read.
    fn read(&mut self, bytes: usize);

    /// All is read, and is cut into parts.
    fn cut(&mut self);

    /// So many parts of so many are done.
    fn done(&mut self, parts: usize, of: usize);

    /// Takes away what stands there.
    fn clear(&mut self)
        ensures { stands self.new ≡ false };
}

/// Nobody, who is told.
#[derive(Clone, Copy)]
pub struct Nobody;

impl Progress for Nobody {
    ghost stands = { λ _. false };

    fn read(&mut self, _bytes: usize) {}

    fn cut(&mut self) {}

    fn done(&mut self, _parts: usize, _of: usize) {}

    fn clear(&mut self) {}
}
