//! Bytes as they are shown to a person.

ghost use Rattle.std.specs.Prelude.{◌≡◌, ◌++◌, ◌<◌, [], ◌∷◌, IfOk, OnOk, string_bytes};
ghost use Rattle.std.specs.Char.{encode_utf8};
ghost use Rattle.rh_streams.specs.Quoted.{closing, digit_of, quoted, shown};

use std::alloc::{AllocError, Global};

/// The most bytes that are shown.
pub const MAX_SHOWN: usize = 40;

/// The bytes between quotes, and two dots behind these where there are more than 40. A quote and a
/// backslash have a backslash before them, and a byte that is not printable stands as `\xEF`.
#[tactic(auto, unfolding(crate::specs::Quoted::quoted))]
pub fn quoted(alloc: Global, bytes: &[u8]) -> Result<String, AllocError>
    ensures { IfOk result (λ text. string_bytes text ≡ quoted bytes.now) }
{
    let mut text = String::new(alloc);
    text.push('"')?;
    for byte in &bytes[..MAX_SHOWN.min(bytes.len())] {
        show(&mut text, *byte)?;
    }
    text.push_str(closing(bytes.len() > MAX_SHOWN))?;
    Ok(text)
}

/// What stands behind bytes of which these were all, or not.
fn closing(are_more: bool) -> &'static str
    ensures { result.now ≡ closing are_more }
{
    if are_more { "\".." } else { "\"" }
}

#[tactic(auto, unfolding(crate::specs::Quoted::shown))]
fn show(text: &mut String, byte: u8) -> Result<(), AllocError>
    ensures { OnOk result (string_bytes text.new ≡ string_bytes text.old ++ shown byte) }
{
    match byte {
        b'"' | b'\\' => {
            text.push('\\')?;
            text.push(byte as char)
        }
        b' '..=b'~' => text.push(byte as char),
        _ => {
            text.push_str("\\x")?;
            text.push(digit(byte / 16))?;
            text.push(digit(byte % 16))
        }
    }
}

fn digit(value: u8) -> char
    requires { value < 16 }
    ensures { encode_utf8 result ≡ digit_of value ∷ [] }
{
    match value {
        0..=9 => (b'0' + value) as char,
        _ => (b'A' + (value - 10)) as char,
    }
}
