//! A byte of a line that is shown.

ghost use Rattle.std.specs.Prelude.{◌≡◌, ◌<◌};
ghost use Rattle.rh_numbers.specs.Excerpt.{hex_digit};

use std::fmt;

/// A byte as it is shown.
#[derive(Clone, Copy)]
pub(crate) struct ShownByte(pub u8);

impl fmt::Display for ShownByte {
    ghost use Rattle.std.specs.Prelude.{Some};
    ghost use Rattle.rh_numbers.specs.Excerpt.{shown_byte};

    ghost output = { λ b. Some (shown_byte b.0) };

    fn fmt<W: fmt::Write>(&self, f: &mut fmt::Formatter<W>) -> fmt::Result {
        let b = self.0;
        let c = char::from(b);
        if b == b'"' || b == b'\\' {
            return write!(f, "\\{c}");
        }
        if b' ' <= b && b <= b'~' {
            return write!(f, "{c}");
        }
        let high = hex_digit(b / 16);
        let low = hex_digit(b % 16);
        write!(f, "\\x{high}{low}")
    }
}

/// The digit, in upper case.
fn hex_digit(digit: u8) -> char
    requires { digit < 16 }
    ensures { result ≡ hex_digit digit }
{
    if digit < 10 {
        char::from(b'0' + digit)
    } else {
        char::from(b'A' + (digit - 10))
    }
}
