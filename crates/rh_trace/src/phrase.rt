//! Phrases: up to two numbers, among words.

ghost use Rattle.std.specs.Prelude.{◌≡◌};
ghost use Rattle.rh_trace.specs.Phrases.{digits_of};

use itoa::Buffer;

/// Its text is these five, one after the other.
#[derive(Clone, Copy)]
pub(crate) struct Phrase {
    pub(crate) before: &'static str,
    pub(crate) first: Option<u64>,
    pub(crate) between: &'static str,
    pub(crate) second: Option<u64>,
    pub(crate) after: &'static str,
}

/// The digits of a number, or none.
pub(crate) fn digits(buffer: &mut Buffer, number: Option<u64>) -> &[u8]
    ensures { result.now ≡ digits_of number }
{
    match number {
        Some(number) => buffer.format(number).as_bytes(),
        None => b"",
    }
}

impl Phrase {
    ghost use Rattle.std.specs.Prelude.{◌++◌, codes, decimal};
    ghost use Rattle.rh_trace.specs.Phrases.{phrase_text};

    pub(crate) fn number(number: u64) -> Phrase
        ensures { phrase_text result ≡ decimal number }
    {
        Phrase::after_word("", number, "")
    }

    pub(crate) fn word(word: &'static str) -> Phrase
        ensures { phrase_text result ≡ word.entry.now }
    {
        Phrase {
            before: word,
            first: None,
            between: "",
            second: None,
            after: "",
        }
    }

    pub(crate) fn after_word(before: &'static str, number: u64, after: &'static str) -> Phrase
        ensures { phrase_text result ≡ before.entry.now ++ (decimal number ++ after.entry.now) }
    {
        Phrase {
            before,
            first: Some(number),
            between: after,
            second: None,
            after: "",
        }
    }

    pub(crate) fn pair(before: &'static str, first: u64, second: u64, after: &'static str) -> Phrase
        ensures { phrase_text
            result ≡ before.entry.now ++ (decimal
            first ++ (codes " " ++ (decimal second ++ after.entry.now))) }
    {
        Phrase {
            before,
            first: Some(first),
            between: " ",
            second: Some(second),
            after,
        }
    }
}
