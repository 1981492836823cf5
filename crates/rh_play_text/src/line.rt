//! What a line says.

ghost use Rattle.std.specs.Prelude.{◌≡◌, option_map};
ghost use Rattle.rh_lines.specs.Lines.{words_of};
ghost use Rattle.rh_lines.specs.Grammar.{no_word};
ghost use Rattle.rh_play_text.specs.Grammar.{fits, is_within, number_and_step, one_kind};
ghost use Rattle.rh_play_text.specs.Grammar.{said_in, saying_in, saying_of, shared};
ghost use Rattle.rh_play_text.specs.Play.{Answers, saying_as};
ghost use Rattle.rh_play_text.specs.Saying.{Schedule};

use crate::fault::PlayTextKind;
use crate::limits::{MAX_BITS, MAX_PLAY_ROOM, MAX_TURNS, MIN_BITS};
use crate::numbers::{number, numbers, one_number, two_numbers};
use crate::schedule::Order;
use crate::verb::{Verb, kind_from_word, step_from_word};
use rh_ledger::Kind;
use rh_lines::{end_of_words, is_skipped, next_word, printable};
use rh_words::StepKind;
use std::alloc::Global;

/// A line that is not skipped.
#[derive(Drop)]
pub(crate) enum TextLine {
    Play(Kind),
    Bits(u64),
    Held(Vec<u64>),
    Rooms { descriptors: u64, marks: u64 },
    Work(Vec<u64>),
    Share { workers: u64, keys: Vec<u64> },
    Schedule(Order),
}

impl TextLine {
    /// Whether its numbers lie in their ranges.
    #[tactic(auto, unfolding(crate::specs::Grammar::fits))]
    pub(crate) fn fits(&self) -> bool
        ensures { result ≡ fits (saying_as self.now) }
    {
        match self {
            TextLine::Bits(bits) => MIN_BITS <= *bits && *bits <= MAX_BITS,
            TextLine::Rooms { descriptors, marks } => is_room(*descriptors) && is_room(*marks),
            TextLine::Schedule(Order::Turn { turns, .. }) => 1 <= *turns && *turns <= MAX_TURNS,
            _ => true,
        }
    }
}

fn is_room(room: u64) -> bool
    ensures { result ≡ is_within 1 MAX_PLAY_ROOM room }
{
    1 <= room && room <= MAX_PLAY_ROOM
}

/// What a line says, if it is not skipped.
#[tactic(auto, unfolding(rh_lines::specs::Grammar::line_said))]
pub(crate) fn read_said(alloc: Global, line: &[u8]) -> Result<Option<TextLine>, PlayTextKind>
    ensures { Answers (said_in line.now) (option_map saying_as) result }
{
    if is_skipped(line) {
        return Ok(None);
    }
    let Some(text) = printable(line) else {
        return Err(PlayTextKind::BadLine);
    };
    let said = parse_words(alloc, text)?;
    Ok(Some(said))
}

#[tactic(auto, unfolding(crate::specs::Grammar::saying_in))]
fn parse_words(alloc: Global, text: &str) -> Result<TextLine, PlayTextKind>
    ensures { Answers (saying_in (words_of text.now)) saying_as result }
{
    let Some((word, rest)) = next_word(text) else {
        return Err(PlayTextKind::BadLine);
    };
    let Some(verb) = Verb::from_word(word) else {
        return Err(PlayTextKind::BadLine);
    };
    parse_after(alloc, verb, rest)
}

#[tactic(auto, unfolding(crate::specs::Grammar::saying_of))]
fn parse_after(alloc: Global, verb: Verb, rest: &str) -> Result<TextLine, PlayTextKind>
    ensures { Answers (saying_of verb (words_of rest.now)) saying_as result }
{
    Ok(match verb {
        Verb::Play => TextLine::Play(one_kind(rest)?),
        Verb::Bits => TextLine::Bits(one_number(rest)?),
        Verb::Held => TextLine::Held(numbers(alloc, rest)?),
        Verb::Rooms => {
            let (descriptors, marks) = two_numbers(rest)?;
            TextLine::Rooms { descriptors, marks }
        }
        Verb::Work => TextLine::Work(numbers(alloc, rest)?),
        Verb::Share => share_line(alloc, rest)?,
        Verb::Turn => {
            let (worker, turns) = two_numbers(rest)?;
            TextLine::Schedule(Order::Turn { worker, turns })
        }
        Verb::Until => {
            let (worker, step) = number_and_step(rest)?;
            TextLine::Schedule(Order::Until { worker, step })
        }
        Verb::Rest => alone(Order::Rest, rest)?,
        Verb::Round => alone(Order::Round, rest)?,
        Verb::Show => alone(Order::Show, rest)?,
    })
}

/// A kind of phase, and nothing after it.
#[tactic(auto, unfolding(crate::specs::Grammar::one_kind))]
fn one_kind(rest: &str) -> Result<Kind, PlayTextKind>
    ensures { result ≡ one_kind (words_of rest.now) }
{
    let Some((word, rest)) = next_word(rest) else {
        return Err(PlayTextKind::BadLine);
    };
    let Some(()) = end_of_words(rest) else {
        return Err(PlayTextKind::BadLine);
    };
    kind_from_word(word).ok_or(PlayTextKind::BadLine)
}

/// A worker and a kind of step, and nothing after them.
#[tactic(auto, unfolding(crate::specs::Grammar::number_and_step))]
fn number_and_step(rest: &str) -> Result<(u64, StepKind), PlayTextKind>
    ensures { result ≡ number_and_step (words_of rest.now) }
{
    let Some((worker, rest)) = next_word(rest) else {
        return Err(PlayTextKind::BadLine);
    };
    let Some((step, rest)) = next_word(rest) else {
        return Err(PlayTextKind::BadLine);
    };
    let Some(()) = end_of_words(rest) else {
        return Err(PlayTextKind::BadLine);
    };
    let worker = number(worker)?;
    let Some(step) = step_from_word(step) else {
        return Err(PlayTextKind::BadLine);
    };
    Ok((worker, step))
}

/// The number of workers, and the keys that they share.
#[tactic(auto, unfolding(crate::specs::Grammar::shared))]
fn share_line(alloc: Global, rest: &str) -> Result<TextLine, PlayTextKind>
    ensures { Answers (shared (words_of rest.now)) saying_as result }
{
    let Some((word, rest)) = next_word(rest) else {
        return Err(PlayTextKind::BadLine);
    };
    let workers = number(word)?;
    let keys = numbers(alloc, rest)?;
    Ok(TextLine::Share { workers, keys })
}

/// An order of one word.
#[tactic(auto, unfolding(rh_lines::specs::Grammar::no_word))]
fn alone(order: Order, rest: &str) -> Result<TextLine, PlayTextKind>
    ensures { Answers (no_word PlayTextKind.BadLine (Schedule order) (words_of rest.now)) saying_as
        result }
{
    let Some(()) = end_of_words(rest) else {
        return Err(PlayTextKind::BadLine);
    };
    Ok(TextLine::Schedule(order))
}
