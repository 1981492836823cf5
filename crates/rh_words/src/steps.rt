//! The steps of a worker, each of which touches one word of a table: as values, and on a slice of
//! words.

ghost use Rattle.std.specs.Prelude.{◌≡◌, ◌<◌, ℕ, length};
ghost use Rattle.rh_words.specs.Requests.{changed, step_asked};
ghost use Rattle.rh_words.specs.Parts.{word_count};
ghost use Rattle.rh_words.specs.Steps.{Allowed, StepsTo, index, word_after};

use crate::reference::{Piece, Reading, Ref};
use crate::shape::{Part, Shape};
use crate::side::Side;
use crate::words::{desc_word, mark_word};
use rh_tagword::{State, pack_control};

/// The kinds of step. Each is one load, store or exchange, compare-and-swap or increment of one
/// word.
#[derive(Clone, Copy, Debug, PartialEq, Eq)]
pub enum StepKind {
    Write,
    Open,
    Read,
    Place,
    Settle,
    Decide,
    Release,
    Claim,
}

/// A step that a worker is to make.
#[derive(Clone, Copy)]
pub enum Request {
    /// Write of a word of an own row.
    Write {
        part: Part,
        word: u64,
    },
    /// Open of the next own descriptor, which has so many entries, in place of the last one.
    Open {
        entries: usize,
    },
    Read(Reading),
    /// Place of the next own mark for an entry, from this old value.
    Place {
        piece: Piece,
        old: u64,
    },
    /// Settle of a mark that is for this piece: to its descriptor, or to this old value.
    Settle {
        mark: Ref,
        piece: Piece,
        old: Option<u64>,
    },
    /// Decide of a descriptor. At which entry it failed, the own reason to its owner says.
    Decide {
        desc: Ref,
        state: State,
    },
    /// Release of an entry of a descriptor that is decided so, or that is stale, to this value.
    Release {
        piece: Piece,
        state: Option<State>,
        value: u64,
    },
    Claim,
}

/// What becomes of the word that a step touches.
#[derive(Clone, Copy)]
pub enum Effect {
    /// It stays.
    Keep,
    Put(u64),
    /// A compare-and-swap.
    Swap { old: u64, new: u64 },
    /// It grows by 1.
    Count,
}

impl Request {
    /// The word that the step touches.
    #[inline(always)]
    pub fn index(&self, shape: &Shape, side: &Side) -> usize
        requires { Allowed shape.now side.now.known.view (step_asked self.now) }
        ensures value { result ≡ index shape.now side.now.known.view (step_asked self.now) }
        ensures within { result < word_count shape.now }
    {
        match *self {
            Request::Write { part, .. } => shape.index(part),
            Request::Open { .. } => shape.row_word(side.worker, 0),
            Request::Read(reading) => reading.index(shape),
            Request::Place { piece, .. }
            | Request::Settle { piece, .. }
            | Request::Release { piece, .. } => piece.cell,
            Request::Decide { desc, .. } => shape.row_word(desc.worker, 0),
            Request::Claim => shape.counter(),
        }
    }

    /// What becomes of the word.
    #[inline(always)]
    pub fn effect(&self, shape: &Shape, side: &Side) -> Effect
        requires { Allowed shape.now side.now.known.view (step_asked self.now) }
        ensures { (n : ℕ) →
            changed result n ≡ word_after side.now.known.view (step_asked self.now) n }
    {
        match *self {
            Request::Write { word, .. } => Effect::Put(word),
            Request::Open { .. } => Effect::Swap {
                old: side.control,
                new: pack_control(side.next_number, State::Undecided),
            },
            Request::Read(_) => Effect::Keep,
            Request::Place { old, .. } => Effect::Swap {
                old,
                new: mark_word(
                    shape,
                    Ref {
                        worker: side.worker,
                        number: side.marks_used,
                    },
                ),
            },
            Request::Settle { mark, piece, old } => Effect::Swap {
                old: mark_word(shape, mark),
                new: match old {
                    None => desc_word(shape, piece.desc),
                    Some(old) => old,
                },
            },
            Request::Decide { desc, state } => Effect::Swap {
                old: pack_control(desc.number, State::Undecided),
                new: pack_control(desc.number, state),
            },
            Request::Release { piece, value, .. } => Effect::Swap {
                old: desc_word(shape, piece.desc),
                new: value,
            },
            Request::Claim => Effect::Count,
        }
    }
}

/// Makes the step on a slice of words, and answers the word that was found.
#[inline(always)]
pub fn make_step(shape: &Shape, words: &mut [u64], side: &mut Side, request: Request) -> u64
    requires sized { length words.old ≡ word_count shape.now }
    requires allowed { Allowed shape.now side.old.known.view (step_asked request) }
    ensures { StepsTo shape.now (step_asked request) words.old side.old.known.view
        result words.new side.new.known.view }
{
    let index = request.index(shape, side);
    let word = words[index];
    words[index] = request.effect(shape, side).on(word);
    side.note(shape, request, word);
    word
}

impl Effect {
    /// The word after, by the word before.
    #[inline(always)]
    fn on(self, word: u64) -> u64
        ensures { result ≡ changed self word }
    {
        match self {
            Effect::Keep => word,
            Effect::Put(new) => new,
            Effect::Swap { old, new } => { if word == old { new } else { word } }
            Effect::Count => word.wrapping_add(1),
        }
    }
}
