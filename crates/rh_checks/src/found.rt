//! What is found in a list.

ghost use Rattle.std.specs.Prelude.{◌≡◌};
ghost use Rattle.rh_checks.specs.Texts.{words_of};

use rh_cutting::KeyList;
use rh_numbers::{BadLine, Excerpt};
use std::fmt;

/// A bad line of a text, as it is shown.
#[derive(Clone, Copy)]
pub struct ShownLine {
    /// Its number, from 1 on.
    pub line: u64,
    pub bad: BadLine,
    /// How it begins.
    pub text: Excerpt,
}

impl fmt::Display for ShownLine {
    ghost use Rattle.std.specs.Prelude.{Some};
    ghost use Rattle.rh_checks.specs.Texts.{line_text};

    ghost output = { λ line. Some (line_text line) };

    fn fmt<W: fmt::Write>(&self, f: &mut fmt::Formatter<W>) -> fmt::Result {
        let (line, text) = (self.line, self.text);
        let words = words_of(self.bad);
        write!(f, "line {line}: {words}: {text}")
    }
}

/// What is wrong with a line, in the words that all commands use.
fn words_of(bad: BadLine) -> &'static str
    ensures { result.now ≡ words_of bad }
{
    match bad {
        BadLine::NotAKey => "not a number from 0 to 4611686018427387902",
        BadLine::OutOfRange => "number above 4611686018427387902",
    }
}

/// What is found in a list.
#[derive(Drop)]
pub(crate) struct Found {
    /// The numbers of the good lines, or the keys of a key file, in their order.
    pub keys: KeyList,
    /// The first bad lines, 20 at the most.
    pub bad: Vec<ShownLine>,
    /// How many more there are.
    pub more: u64,
}
