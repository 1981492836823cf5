//! The tokens of an expression.

ghost use Rattle.std.specs.Prelude.{◌≡◌, IfOk, false, map, string_bytes};
ghost use Rattle.std.specs.List.{before_first, position};
ghost use Rattle.std.specs.Str.{bytes_eq};
ghost use Rattle.rh_expressions.specs.Tokens.{begins, ends_name, is_of_name, kind_at, kind_of_name};
ghost use Rattle.rh_expressions.specs.Tokens.{tokens_of};

use rh_combine::How;
use std::alloc::{AllocError, Global};

/// What a token is.
#[derive(Clone, Copy)]
pub(crate) enum TokenKind {
    /// The name of the list of this index.
    List(usize),
    /// A name that no list has.
    Unknown,
    Operator(How),
    Open,
    Close,
    /// A byte that begins no token.
    Foreign,
}

/// A token, and how many bytes stand before it.
#[derive(Clone, Copy)]
pub(crate) struct Token {
    pub(crate) at: usize,
    pub(crate) kind: TokenKind,
}

/// Whether the byte may stand in a name.
pub(crate) fn is_of_name(byte: u8) -> bool
    ensures { result ≡ is_of_name byte }
{
    byte.is_ascii_alphanumeric() || byte == b'_'
}

/// The tokens of the text, where the lists have these names.
pub(crate) fn tokens(alloc: Global, text: &str, names: &[String]) -> Result<Vec<Token>, AllocError>
    ensures { IfOk result (λ v.
        v.items ≡ tokens_of (map string_bytes names.now) 0 false text.now) }
{
    let text = text.as_bytes();
    let mut tokens = Vec::new(alloc);
    let mut in_name = false;
    for at in 0..text.len() {
        if begins(in_name, text[at]) {
            let kind = kind_at(&text[at..], names);
            tokens.push(Token { at, kind })?;
        }
        in_name = is_of_name(text[at]);
    }
    Ok(tokens)
}

/// Whether a token begins with this byte, before which a name may stand.
fn begins(in_name: bool, byte: u8) -> bool
    ensures { result ≡ begins in_name byte }
{
    !byte.is_ascii_whitespace() && !(in_name && is_of_name(byte))
}

/// What the token is that begins the text.
fn kind_at(text: &[u8], names: &[String]) -> TokenKind
    ensures { result ≡ kind_at (map string_bytes names.now) text.now }
{
    match text.first() {
        Some(byte) if is_of_name(*byte) => kind_of_name(name_at(text), names),
        Some(b'&') => TokenKind::Operator(How::Intersect),
        Some(b'|') => TokenKind::Operator(How::Union),
        Some(b'-') => TokenKind::Operator(How::Subtract),
        Some(b'^') => TokenKind::Operator(How::Xor),
        Some(b'(') => TokenKind::Open,
        Some(b')') => TokenKind::Close,
        _ => TokenKind::Foreign,
    }
}

/// The name that begins the text.
fn name_at(text: &[u8]) -> &[u8]
    ensures { result.now ≡ before_first ends_name text.now }
{
    let end = text.iter().position(|byte| !is_of_name(*byte));
    &text[..end.unwrap_or(text.len())]
}

/// The list of this name.
fn kind_of_name(name: &[u8], names: &[String]) -> TokenKind
    ensures { result ≡ kind_of_name (map string_bytes names.now) name.now }
{
    match names.iter().position(|other| other.as_bytes() == name) {
        Some(index) => TokenKind::List(index),
        None => TokenKind::Unknown,
    }
}
