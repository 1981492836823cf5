//! The numbers of a line.

ghost use Rattle.std.specs.Prelude.{◌≡◌, []};
ghost use Rattle.rh_lines.specs.Lines.{words_of};
ghost use Rattle.rh_play_text.specs.Grammar.{number_of, numbers_after, one_number, two_numbers};
ghost use Rattle.rh_play_text.specs.Play.{Answers};

use crate::fault::PlayTextKind;
use crate::limits::MAX_DIGITS;
use rh_lines::{end_of_words, next_word};
use std::alloc::Global;

/// The number of a word of decimal digits.
#[tactic(auto, unfolding(crate::specs::Grammar::number_of))]
pub(crate) fn number(word: &str) -> Result<u64, PlayTextKind>
    ensures { result ≡ number_of word.now }
{
    let digits = word.as_bytes();
    if digits.len() > MAX_DIGITS || !digits.iter().all(|b| b.is_ascii_digit()) {
        return Err(PlayTextKind::BadLine);
    }
    match word.parse() {
        Ok(n) => Ok(n),
        Err(_) => Err(PlayTextKind::BadLine),
    }
}

/// A number, and nothing after it.
#[tactic(auto, unfolding(crate::specs::Grammar::one_number))]
pub(crate) fn one_number(rest: &str) -> Result<u64, PlayTextKind>
    ensures { result ≡ one_number (words_of rest.now) }
{
    let Some((word, rest)) = next_word(rest) else {
        return Err(PlayTextKind::BadLine);
    };
    let Some(()) = end_of_words(rest) else {
        return Err(PlayTextKind::BadLine);
    };
    number(word)
}

/// Two numbers, and nothing after them.
#[tactic(auto, unfolding(crate::specs::Grammar::two_numbers))]
pub(crate) fn two_numbers(rest: &str) -> Result<(u64, u64), PlayTextKind>
    ensures { result ≡ two_numbers (words_of rest.now) }
{
    let Some((first, rest)) = next_word(rest) else {
        return Err(PlayTextKind::BadLine);
    };
    let Some((second, rest)) = next_word(rest) else {
        return Err(PlayTextKind::BadLine);
    };
    let Some(()) = end_of_words(rest) else {
        return Err(PlayTextKind::BadLine);
    };
    let first = number(first)?;
    let second = number(second)?;
    Ok((first, second))
}

/// The numbers of all words, in their order.
pub(crate) fn numbers(alloc: Global, words: &str) -> Result<Vec<u64>, PlayTextKind>
    ensures { Answers (numbers_after [] (words_of words.now)) (λ v. v.items) result }
{
    let mut found = Vec::new(alloc);
    let mut rest = words;
    while let Some((word, after)) = next_word(rest) {
        let n = number(word)?;
        found.push(n)?;
        rest = after;
    }
    Ok(found)
}
