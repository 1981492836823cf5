//! The words of a shared table, and the steps of a worker on them.

ghost use Rattle.rh_words.specs.Parts.{IsPart, word_count};
ghost use Rattle.rh_words.specs.Steps.{Allowed};
ghost use Rattle.rh_words.specs.Steps.Step.{claims, decides, opens, places, reads, releases, settles, writes};
ghost use Rattle.rh_words.specs.Words.{control_of, ref_of};
ghost use Rattle.rh_layout.specs.Key.{IsBits};
ghost use Rattle.rh_words.specs.declared.limits.TheConstants.{MAX_ROOM, MAX_WORKERS};
ghost use Rattle.std.specs.Prelude.{length, option_map, ◌≡◌, ◌≤◌, ◌<◌};

pub use rh_descriptor::{RowRule, a_wipe_keeps, each_step_keeps};
use rh_descriptor::{Entry, Part, Piece, Reading, Ref, Rooms, Shape, Side, StepKind};
use rh_tagword::State;

pub fn shape_words(shape: &Shape) -> usize {
    shape.words()
}

pub fn shape_index(shape: &Shape, part: Part) -> usize
    requires { IsPart shape.now part }
{
    shape.index(part)
}

pub fn write_word(shape: &Shape, words: &mut [u64], side: &mut Side, part: Part, word: u64)
    requires sized { length words.old ≡ word_count shape.now }
    requires allowed { Allowed shape.now side.old.known.view (writes part word) }
{
    rh_descriptor::write_word(shape, words, side, part, word);
}

pub fn open_desc(shape: &Shape, words: &mut [u64], side: &mut Side, entries: usize)
    requires sized { length words.old ≡ word_count shape.now }
    requires allowed { Allowed shape.now side.old.known.view (opens entries) }
{
    rh_descriptor::open_desc(shape, words, side, entries);
}

pub fn read_word(shape: &Shape, words: &mut [u64], side: &mut Side, reading: Reading) -> u64
    requires sized { length words.old ≡ word_count shape.now }
    requires allowed { Allowed shape.now side.old.known.view (reads reading) }
{
    rh_descriptor::read_word(shape, words, side, reading)
}

pub fn place_mark(shape: &Shape, words: &mut [u64], side: &mut Side, piece: Piece, old: u64) -> u64
    requires sized { length words.old ≡ word_count shape.now }
    requires allowed { Allowed shape.now side.old.known.view
        (places (ref_of piece.desc) piece.entry piece.cell old) }
{
    rh_descriptor::place_mark(shape, words, side, piece, old)
}

pub fn settle_mark(
    shape: &Shape,
    words: &mut [u64],
    side: &mut Side,
    mark: Ref,
    piece: Piece,
    old: Option<u64>,
) -> u64
    requires sized { length words.old ≡ word_count shape.now }
    requires allowed { Allowed shape.now side.old.known.view
        (settles (ref_of mark) piece.cell (ref_of piece.desc) piece.entry old) }
{
    rh_descriptor::settle_mark(shape, words, side, mark, piece, old)
}

pub fn decide_desc(
    shape: &Shape,
    words: &mut [u64],
    side: &mut Side,
    desc: Ref,
    state: State,
) -> u64
    requires sized { length words.old ≡ word_count shape.now }
    requires allowed { Allowed shape.now side.old.known.view
        (decides (ref_of desc) (control_of state)) }
{
    rh_descriptor::decide_desc(shape, words, side, desc, state)
}

pub fn release_cell(
    shape: &Shape,
    words: &mut [u64],
    side: &mut Side,
    piece: Piece,
    state: Option<State>,
    value: u64,
) -> u64
    requires sized { length words.old ≡ word_count shape.now }
    requires allowed { Allowed shape.now side.old.known.view
        (releases (ref_of piece.desc) piece.entry piece.cell (option_map control_of state) value) }
{
    rh_descriptor::release_cell(shape, words, side, piece, state, value)
}

pub fn claim_key(shape: &Shape, words: &mut [u64], side: &mut Side) -> u64
    requires sized { length words.old ≡ word_count shape.now }
    requires allowed { Allowed shape.now side.old.known.view claims }
{
    rh_descriptor::claim_key(shape, words, side)
}

pub fn variants(kind: StepKind) {
    match kind {
        StepKind::Write
        | StepKind::Open
        | StepKind::Read
        | StepKind::Place
        | StepKind::Settle
        | StepKind::Decide
        | StepKind::Release
        | StepKind::Claim => {}
    }
}

pub fn fields(bits: u32, workers: usize, number: u64, cell: usize) -> (Shape, Entry)
    requires bits { IsBits bits }
    requires workers { (0 < workers) × (workers ≤ MAX_WORKERS) }
    requires number { number ≤ MAX_ROOM }
{
    let shape = Shape {
        bits,
        workers,
        keys: number,
        rooms: Rooms {
            descriptors: number,
            marks: number,
        },
    };
    let entry = Entry {
        cell,
        old: number,
        new: number,
    };
    (shape, entry)
}
