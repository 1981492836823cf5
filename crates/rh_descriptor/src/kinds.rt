//! The kinds of step by their names, each made on a slice of words by one worker.

ghost use Rattle.std.specs.Prelude.{◌≡◌, length, option_map};
ghost use Rattle.rh_words.specs.Parts.{word_count};
ghost use Rattle.rh_words.specs.Steps.{Allowed, Makes, StepsTo};
ghost use Rattle.rh_words.specs.Steps.Step.{claims, decides, opens, places, reads, releases, settles, writes};
ghost use Rattle.rh_words.specs.Words.{control_of, ref_of};

use rh_tagword::State;
use rh_words::{Part, Piece, Reading, Ref, Request, Shape, Side, make_step};

/// Writes a word of an own row.
pub fn write_word(shape: &Shape, words: &mut [u64], side: &mut Side, part: Part, word: u64)
    requires sized { length words.old ≡ word_count shape.now }
    requires allowed { Allowed shape.now side.old.known.view (writes part word) }
    ensures { Makes shape.now
        (writes part word) words.old side.old.known.view words.new side.new.known.view }
{
    make_step(shape, words, side, Request::Write { part, word });
}

/// Opens the next own descriptor, whose row says so many entries.
pub fn open_desc(shape: &Shape, words: &mut [u64], side: &mut Side, entries: usize)
    requires sized { length words.old ≡ word_count shape.now }
    requires allowed { Allowed shape.now side.old.known.view (opens entries) }
    ensures { Makes shape.now
        (opens entries) words.old side.old.known.view words.new side.new.known.view }
{
    make_step(shape, words, side, Request::Open { entries });
}

/// Reads a word.
pub fn read_word(shape: &Shape, words: &mut [u64], side: &mut Side, reading: Reading) -> u64
    requires sized { length words.old ≡ word_count shape.now }
    requires allowed { Allowed shape.now side.old.known.view (reads reading) }
    ensures { StepsTo shape.now (reads reading) words.old side.old.known.view result words.new
        side.new.known.view }
{
    make_step(shape, words, side, Request::Read(reading))
}

/// Swaps a cell from the old value of an entry to the next own mark. Answers the word that stood
/// there.
pub fn place_mark(shape: &Shape, words: &mut [u64], side: &mut Side, piece: Piece, old: u64) -> u64
    requires sized { length words.old ≡ word_count shape.now }
    requires allowed { Allowed shape.now side.old.known.view
        (places (ref_of piece.desc) piece.entry piece.cell old) }
    ensures { StepsTo shape.now (places (ref_of piece.desc) piece.entry piece.cell old)
        words.old side.old.known.view result words.new side.new.known.view }
{
    make_step(shape, words, side, Request::Place { piece, old })
}

/// Swaps a cell from a mark to its descriptor, or to this old value. Answers the word that stood
/// there.
pub fn settle_mark(
    shape: &Shape,
    words: &mut [u64],
    side: &mut Side,
    mark: Ref,
    piece: Piece,
    old: Option<u64>,
) -> u64
    requires sized { length words.old ≡ word_count shape.now }
    requires allowed { Allowed shape.now side.old.known.view
        (settles (ref_of mark) piece.cell (ref_of piece.desc) piece.entry old) }
    ensures { StepsTo shape.now
        (settles (ref_of mark) piece.cell (ref_of piece.desc) piece.entry old)
        words.old side.old.known.view result words.new side.new.known.view }
{
    make_step(shape, words, side, Request::Settle { mark, piece, old })
}

/// Swaps the control of a descriptor from undecided to this state. Answers the word that stood
/// there.
pub fn decide_desc(
    shape: &Shape,
    words: &mut [u64],
    side: &mut Side,
    desc: Ref,
    state: State,
) -> u64
    requires sized { length words.old ≡ word_count shape.now }
    requires allowed { Allowed shape.now side.old.known.view
        (decides (ref_of desc) (control_of state)) }
    ensures { StepsTo shape.now (decides (ref_of desc) (control_of state))
        words.old side.old.known.view result words.new side.new.known.view }
{
    make_step(shape, words, side, Request::Decide { desc, state })
}

/// Swaps a cell from a descriptor that is decided so, or that is stale, to this value. Answers the
/// word that stood there.
pub fn release_cell(
    shape: &Shape,
    words: &mut [u64],
    side: &mut Side,
    piece: Piece,
    state: Option<State>,
    value: u64,
) -> u64
    requires sized { length words.old ≡ word_count shape.now }
    requires allowed { Allowed shape.now side.old.known.view
        (releases (ref_of piece.desc) piece.entry piece.cell (option_map control_of state) value) }
    ensures { StepsTo shape.now
        (releases (ref_of piece.desc) piece.entry piece.cell (option_map control_of state) value)
        words.old side.old.known.view result words.new side.new.known.view }
{
    make_step(
        shape,
        words,
        side,
        Request::Release {
            piece,
            state,
            value,
        },
    )
}

/// Takes the next position of the list of keys, by an increment of the counter. Answers the
/// position.
pub fn claim_key(shape: &Shape, words: &mut [u64], side: &mut Side) -> u64
    requires sized { length words.old ≡ word_count shape.now }
    requires allowed { Allowed shape.now side.old.known.view claims }
    ensures { StepsTo shape.now claims words.old side.old.known.view result words.new
        side.new.known.view }
{
    make_step(shape, words, side, Request::Claim)
}
