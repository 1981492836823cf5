//! A text, and where in it something is wrong.

use rh_expressions::MAX_EXPRESSION_BYTES;
use std::fmt::{self, Display, Formatter, Write};

/// A text, before whose fault so many bytes stand, all of them of ASCII.
#[derive(Debug, Drop)]
pub struct Marked {
    pub text: String,
    pub at: usize,
}

/// The text on a line of its own, and a caret below the fault. A text that is longer than an
/// expression may be is left out: none of its bytes is the fault.
impl Display for Marked {
    fn fmt<W: Write>(&self, f: &mut Formatter<W>) -> fmt::Result {
        if self.text.len() > MAX_EXPRESSION_BYTES {
            return Ok(());
        }
        f.write_str("\n  ")?;
        for letter in self.text.chars() {
            f.write_char(if letter.is_control() { ' ' } else { letter })?;
        }
        write!(f, "\n  {:>width$}", '^', width = self.at.saturating_add(1))
    }
}
