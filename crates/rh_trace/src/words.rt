//! What parts and words are called.

ghost use Rattle.std.specs.Prelude.{◌≡◌, ◌++◌, codes, decimal};
ghost use Rattle.rh_trace.specs.Phrases.{phrase_text};
ghost use Rattle.rh_trace.specs.Telling.{cell_text, control_text, held_text, entry_text, named_text, part_text, state_text, word_text};
ghost use Rattle.rh_tagword.specs.Control.{control_in};
ghost use Rattle.rh_tagword.specs.Word.{word_in};

use crate::phrase::Phrase;
use rh_tagword::{State, Word, unpack, unpack_control};
use rh_words::Part;

pub(crate) fn part_phrase(part: Part) -> Phrase
    ensures { phrase_text result ≡ part_text part }
{
    match part {
        Part::Cell(cell) => Phrase::after_word("cell ", cell as u64, ""),
        Part::Control { worker } => Phrase::after_word("control ", worker as u64, ""),
        Part::Serial { worker } => Phrase::after_word("serial ", worker as u64, ""),
        Part::Length { worker } => Phrase::after_word("length ", worker as u64, ""),
        Part::EntryCell { worker, entry } => entry_phrase(worker, entry, " cell"),
        Part::EntryOld { worker, entry } => entry_phrase(worker, entry, " old"),
        Part::EntryNew { worker, entry } => entry_phrase(worker, entry, " new"),
        Part::MarkSerial { worker } => Phrase::after_word("mark ", worker as u64, " serial"),
        Part::MarkDesc { worker } => Phrase::after_word("mark ", worker as u64, " desc"),
        Part::MarkEntry { worker } => Phrase::after_word("mark ", worker as u64, " entry"),
        Part::Reason { worker, owner } => Phrase::pair("reason ", worker as u64, owner as u64, ""),
        Part::Counter => Phrase::word("counter"),
    }
}

fn entry_phrase(worker: usize, entry: usize, word: &'static str) -> Phrase
    ensures { phrase_text result ≡ entry_text worker entry word.entry.now }
{
    Phrase::pair("entry ", worker as u64, entry as u64, word)
}

/// What a word of this part says.
pub(crate) fn word_phrase(part: Part, word: u64) -> Phrase
    ensures { phrase_text result ≡ word_text part word }
{
    match part {
        Part::Cell(_) | Part::EntryOld { .. } | Part::EntryNew { .. } => held_phrase(word),
        Part::Control { .. } => control_phrase(word),
        Part::MarkDesc { .. } => named_phrase(word),
        Part::Serial { .. }
        | Part::Length { .. }
        | Part::EntryCell { .. }
        | Part::MarkSerial { .. }
        | Part::MarkEntry { .. }
        | Part::Reason { .. }
        | Part::Counter => Phrase::number(word),
    }
}

fn held_phrase(word: u64) -> Phrase
    ensures { phrase_text result ≡ held_text word (word_in word) }
{
    match unpack(word) {
        Some(held) => cell_phrase(held),
        None => Phrase::number(word),
    }
}

fn cell_phrase(held: Word) -> Phrase
    ensures { phrase_text result ≡ cell_text held }
{
    match held {
        Word::Empty => Phrase::word("empty"),
        Word::Key(key) => Phrase::after_word("key ", key, ""),
        Word::Mark { worker, number } => Phrase::pair("mark ", worker, number, ""),
        Word::Desc { worker, number } => Phrase::pair("desc ", worker, number, ""),
    }
}

fn named_phrase(word: u64) -> Phrase
    ensures { phrase_text result ≡ named_text word (word_in word) }
{
    match unpack(word) {
        Some(Word::Desc { worker, number }) => Phrase::pair("desc ", worker, number, ""),
        _ => Phrase::number(word),
    }
}

fn control_phrase(word: u64) -> Phrase
    ensures { phrase_text result ≡ control_text word (control_in word) }
{
    match unpack_control(word) {
        Some((serial, state)) => state_phrase(serial, state),
        None => Phrase::number(word),
    }
}

fn state_phrase(serial: u64, state: State) -> Phrase
    ensures { phrase_text result ≡ decimal serial ++ state_text state }
{
    let word = match state {
        State::Unused => " unused",
        State::Undecided => " undecided",
        State::Succeeded => " succeeded",
        State::Withdrawn => " withdrawn",
        State::Failed { decider } => return failed_phrase(serial, decider),
    };
    Phrase::after_word("", serial, word)
}

fn failed_phrase(serial: u64, decider: u64) -> Phrase
    ensures { phrase_text result ≡ decimal serial ++ (codes " failed " ++ decimal decider) }
{
    Phrase {
        before: "",
        first: Some(serial),
        between: " failed ",
        second: Some(decider),
        after: "",
    }
}
