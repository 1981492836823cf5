//! What a line has said so far, byte by byte.

ghost use Rattle.std.specs.Prelude.{◌≡◌, ◌≤◌, ◌+◌, ℕ, List, IfOk, IfSome};
ghost use Rattle.rh_layout.specs.Key.{IsKey};
ghost use Rattle.rh_layout.specs.declared.limits.TheConstants.{MAX_KEY};
ghost use Rattle.rh_numbers.specs.Chunks.{ended, in_line};
ghost use Rattle.rh_numbers.specs.Reading.{first, grown, next, past, with_key, with_line};

use crate::fault::TextFault;
use rh_layout::MAX_KEY;

/// What a line has said so far. A number above the greatest key counts as the first of them.
/// No line is kept, so that one may be of any length.
#[derive(Clone, Copy)]
pub enum LineSoFar {
    /// Nothing, at the head of a text: a byte order mark, EF BB BF, may come, and is passed by.
    Head,
    /// The first byte of the mark.
    MarkOne,
    /// Its first two bytes.
    MarkTwo,
    /// Nothing.
    Start,
    /// Spaces or tabs.
    Blank,
    /// `#`, and whatever came after it.
    Comment,
    /// Digits, perhaps after these.
    Number(u64),
    /// And spaces or tabs after them.
    After(u64),
    /// A carriage return, after this number or none: the line has to end here.
    Return(Option<u64>),
    /// What is no number.
    Other,
}

/// What is wrong with a line.
#[derive(Clone, Copy)]
pub enum BadLine {
    NotAKey,
    /// Its number is greater than the greatest key.
    OutOfRange,
}

impl BadLine {
    /// The fault of a text whose line with this number is so.
    pub fn in_line(self, line: u64) -> TextFault
        ensures { result ≡ in_line line self }
    {
        match self {
            BadLine::NotAKey => TextFault::NotAKey { line },
            BadLine::OutOfRange => TextFault::OutOfRange { line },
        }
    }
}

impl LineSoFar {
    /// What it has said after the next byte.
    pub fn next(self, b: u8) -> LineSoFar
        ensures { result ≡ next self b }
    {
        match self {
            LineSoFar::Head if b == 0xEF => LineSoFar::MarkOne,
            LineSoFar::MarkOne if b == 0xBB => LineSoFar::MarkTwo,
            LineSoFar::MarkTwo if b == 0xBF => LineSoFar::Start,
            LineSoFar::MarkOne | LineSoFar::MarkTwo => LineSoFar::Other,
            LineSoFar::Head | LineSoFar::Start if b == b'#' => LineSoFar::Comment,
            LineSoFar::Head | LineSoFar::Start | LineSoFar::Blank => first(b),
            LineSoFar::Comment => LineSoFar::Comment,
            LineSoFar::Number(n) if b.is_ascii_digit() => LineSoFar::Number(with_digit(n, b)),
            LineSoFar::Number(n) | LineSoFar::After(n) => past(LineSoFar::After(n), Some(n), b),
            LineSoFar::Return(_) | LineSoFar::Other => LineSoFar::Other,
        }
    }

    /// The key that the line says where it ends here, if it says one.
    pub fn end(self) -> Result<Option<u64>, BadLine>
        ensures said { (keys : List ℕ) (line : ℕ) →
            with_line keys line self ≡ ended keys line result }
        ensures in_range { IfOk result (λ said. IfSome said IsKey) }
    {
        match self {
            LineSoFar::Head
            | LineSoFar::Start
            | LineSoFar::Blank
            | LineSoFar::Comment
            | LineSoFar::Return(None) => Ok(None),
            LineSoFar::Number(n) | LineSoFar::After(n) | LineSoFar::Return(Some(n)) => key(n),
            LineSoFar::MarkOne | LineSoFar::MarkTwo | LineSoFar::Other => Err(BadLine::NotAKey),
        }
    }
}

/// The number, where it is a key.
fn key(n: u64) -> Result<Option<u64>, BadLine>
    ensures said { (keys : List ℕ) (line : ℕ) → with_key keys line n ≡ ended keys line result }
    ensures in_range { IfOk result (λ said. IfSome said IsKey) }
{
    if n > MAX_KEY {
        return Err(BadLine::OutOfRange);
    }
    Ok(Some(n))
}

/// The number with one more digit.
fn with_digit(n: u64, digit: u8) -> u64
    requires { (48 ≤ digit) × (digit ≤ 57) }
    ensures { result ≡ grown n digit }
{
    n.saturating_mul(10)
        .saturating_add(u64::from(digit - b'0'))
        .min(MAX_KEY + 1)
}

/// What it has said after a byte with only spaces and tabs before it.
fn first(b: u8) -> LineSoFar
    ensures { result ≡ first b }
{
    if b.is_ascii_digit() {
        return LineSoFar::Number(with_digit(0, b));
    }
    past(LineSoFar::Blank, None, b)
}

/// What it has said after a byte that is no digit.
fn past(blank: LineSoFar, said: Option<u64>, b: u8) -> LineSoFar
    ensures { result ≡ past blank said b }
{
    match b {
        b' ' | b'\t' => blank,
        b'\r' => LineSoFar::Return(said),
        _ => LineSoFar::Other,
    }
}
