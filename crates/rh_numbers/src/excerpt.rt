//! The beginning of a line, to be shown to a person.

ghost use Rattle.std.specs.Prelude.{◌≤◌};
ghost use Rattle.rh_numbers.specs.declared.excerpt.TheConstants.{HELD_BYTES};

use crate::shown_byte::ShownByte;
use std::fmt;

/// So many bytes of a line are shown.
pub const SHOWN_BYTES: usize = 40;

/// So many are held: one more, which says whether the line goes on, and one that may be a carriage
/// return at its end.
pub const HELD_BYTES: usize = SHOWN_BYTES + 2;

/// The beginning of a line of a text. It is shown in quotes, as in `"customer_id"`: printable ASCII
/// as it is, a quote and a backslash with a backslash before them, and any other byte as `\xEF`.
/// Where the line goes on two dots stand behind the quotes.
#[derive(Clone, Copy, Debug)]
pub struct Excerpt {
    pub(crate) bytes: [u8; HELD_BYTES],
    pub(crate) length: usize,
    ghost within: { length ≤ HELD_BYTES },
}

impl Excerpt {
    ghost use Rattle.std.specs.Prelude.{◌≡◌, ◌++◌, [], ◌∷◌, IsTrue, length, take};
    ghost use Rattle.rh_numbers.specs.Excerpt.{held_by, without_return};

    /// Nothing is held yet.
    pub fn new() -> Excerpt
        ensures { held_by result ≡ [] }
    {
        Excerpt {
            bytes: [0; HELD_BYTES],
            length: 0,
        }
    }

    /// Whether it holds as much of its line as it can.
    pub(crate) fn is_full(&self) -> bool
        ensures { IsTrue result → length (held_by self.now) ≡ HELD_BYTES }
    {
        self.length == HELD_BYTES
    }

    /// Holds the next byte of the line too, where there is room for it.
    pub fn push(&mut self, b: u8)
        ensures { held_by self.new ≡ take HELD_BYTES (held_by self.old ++ b ∷ []) }
    {
        if self.length < HELD_BYTES {
            self.bytes[self.length] = b;
            self.length += 1;
        }
    }

    /// The same without a carriage return at its end.
    pub fn without_return(self) -> Excerpt
        ensures { held_by result ≡ without_return (held_by self) }
    {
        let Excerpt { bytes, length } = self;
        if length == 0 || bytes[length - 1] != b'\r' {
            return self;
        }
        Excerpt {
            bytes,
            length: length - 1,
        }
    }
}

impl fmt::Display for Excerpt {
    ghost use Rattle.std.specs.Prelude.{Some};
    ghost use Rattle.rh_numbers.specs.Excerpt.{held_by, shown};

    ghost output = { λ e. Some (shown (held_by e)) };

    fn fmt<W: fmt::Write>(&self, f: &mut fmt::Formatter<W>) -> fmt::Result {
        let count = self.length.min(SHOWN_BYTES);
        write!(f, "\"")?;
        for b in &self.bytes[..count] {
            let shown = ShownByte(*b);
            write!(f, "{shown}")?;
        }
        write!(f, "\"")?;
        if self.length > SHOWN_BYTES {
            write!(f, "..")?;
        }
        Ok(())
    }
}
