//! Plain lines: digits alone, not many, and what ends a line. They are read without the states of
//! a line.

ghost use Rattle.std.specs.Prelude.{◌≡◌, ◌≤◌, ◌<◌, ◌+◌, ◌++◌, ℕ, List, [], ◌∷◌, All, IfOk, IfSome, drop, length, take};
ghost use Rattle.rh_layout.specs.Key.{IsKey};
ghost use Rattle.rh_numbers.specs.Digits.{AreDigits};
ghost use Rattle.rh_numbers.specs.Grammar.{IsReturn};
ghost use Rattle.rh_numbers.specs.Reading.{said_from};
ghost use Rattle.rh_numbers.specs.declared.line_so_far.LineSoFar.TheVariants.{Start};

use core::dec2flt::read_digits;
use rh_layout::MAX_KEY;
use std::alloc::AllocError;

/// The most digits of a plain line, as the greatest key has: so many make a number below 2^64.
const PLAIN_DIGITS: usize = 19;

/// The most that are read one by one.
const FEW_DIGITS: usize = 3;

/// Digits that a text begins with, and their number.
#[derive(Clone, Copy)]
struct Digits {
    number: u64,
    length: usize,
}

/// A plain line: its key, and how many bytes it has, those that end it among them.
#[derive(Clone, Copy)]
struct PlainLine {
    key: u64,
    length: usize,
}

/// How many plain lines were read, and how many bytes they have.
#[derive(Clone, Copy)]
pub(crate) struct PlainLines {
    pub count: u64,
    pub length: usize,
}

impl Digits {
    /// These digits of the text and the one behind them, if one stands there.
    #[inline(always)]
    fn with_next(self, text: &[u8]) -> Option<Digits>
        requires begin { AreDigits text.now self }
        requires few { self.length < FEW_DIGITS }
        ensures begin { IfSome result (AreDigits text.now) }
        ensures one_more { IfSome result (λ digits. digits.length ≡ self.length + 1) }
    {
        let Digits { number, length } = self;
        if length >= text.len() || !text[length].is_ascii_digit() {
            return None;
        }
        Some(Digits {
            number: number * 10 + u64::from(text[length] - b'0'),
            length: length + 1,
        })
    }
}

/// The digits that the text begins with, a few at the most, one by one.
fn few_digits_of(text: &[u8]) -> Digits
    ensures begin { AreDigits text.now result }
    ensures few { result.length ≤ FEW_DIGITS }
{
    let none = Digits {
        number: 0,
        length: 0,
    };
    let Some(one) = none.with_next(text) else {
        return none;
    };
    let Some(two) = one.with_next(text) else {
        return one;
    };
    two.with_next(text).unwrap_or(two)
}

/// Whether the text begins with a few digits alone or with none: to read them one by one takes less
/// time then than to read them eight at a time. Nothing else depends on it.
fn is_short(text: &[u8]) -> bool {
    match text {
        [first, second, third, fourth, ..] => {
            *second < b'0' || *third < b'0' || *fourth < b'0' || *first < b'0'
        }
        _ => true,
    }
}

/// The digits that the text begins with, so many at the most.
fn digits_of(text: &[u8]) -> Digits
    ensures begin { AreDigits text.now result }
    ensures few { result.length ≤ PLAIN_DIGITS }
{
    if is_short(text) {
        return few_digits_of(text);
    }
    let most = text.len().min(PLAIN_DIGITS);
    let (length, number) = read_digits(&text[..most], 0, 0);
    Digits { number, length }
}

/// Where the next line begins, if the line ends at this place: by a line feed, before which a
/// carriage return may stand.
fn behind_end(text: &[u8], at: usize) -> Option<usize>
    requires { at ≤ length text.now }
    ensures within { IfSome result (λ next. (at < next) × (next ≤ length text.now)) }
    ensures ends { IfSome result (λ next. (end : List ℕ) × IsReturn end
        × (drop at text.now ≡ end ++ 10 ∷ drop next text.now)) }
{
    if at < text.len() && text[at] == b'\n' {
        return Some(at + 1);
    }
    let feed = at + 1;
    if feed < text.len() && text[at] == b'\r' && text[feed] == b'\n' {
        return Some(feed + 1);
    }
    None
}

/// The plain line that the text begins with.
fn plain_line(text: &[u8]) -> Option<PlainLine>
    ensures within { IfSome result (λ line. (0 < line.length) × (line.length ≤ length text.now)) }
    ensures read { IfSome result (λ line. (keys : List ℕ) (at : ℕ) (more : List ℕ) →
        said_from keys at Start (text.now ++ more)
        ≡ said_from (keys ++ line.key ∷ []) (at + 1) Start (drop line.length text.now ++ more)) }
    ensures in_range { IfSome result (λ line. IsKey line.key) }
{
    let Digits { number, length } = digits_of(text);
    if length == 0 || number > MAX_KEY {
        return None;
    }
    let next = behind_end(text, length)?;
    Some(PlainLine {
        key: number,
        length: next,
    })
}

/// Takes the keys of the plain lines that the text begins with.
pub(crate) fn take_plain_lines(keys: &mut Vec<u64>, text: &[u8]) -> Result<PlainLines, AllocError>
    ensures read { IfOk result (λ lines. (at : ℕ) (more : List ℕ) →
        said_from keys.old.items at Start (text.now ++ more)
        ≡ said_from keys.new.items (at + lines.count) Start (drop lines.length text.now ++ more)) }
    ensures in_range { All IsKey keys.old.items → All IsKey keys.new.items }
    ensures within { IfOk result (λ lines. lines.length ≤ length text.now) }
    ensures few { IfOk result (λ lines. lines.count ≤ lines.length) }
{
    let mut count = 0;
    let mut passed = 0;
    while let Some(line) = plain_line(&text[passed..]) {
        keys.push(line.key)?;
        count += 1;
        passed += line.length;
    }
    Ok(PlainLines {
        count,
        length: passed,
    })
}
