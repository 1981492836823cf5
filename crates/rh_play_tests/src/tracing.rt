//! The steps that are traced, made again one by one on words of the test's own, by the pure steps
//! of `rh_descriptor`. What a step names is taken from the words as they stand, and the rest from
//! its record. Where neither tells what a swap named that found something else, the word has to
//! stay.

ghost use Rattle.std.specs.Prelude.{◌≡◌, ◌<◌, IfSome, IsTrue, length};
ghost use Rattle.rh_words.specs.Parts.{IsPart, word_count};
ghost use Rattle.rh_words.specs.Steps.{IsFree};
ghost use Rattle.rh_words.specs.declared.steps.Request.TheVariants.{Write};
ghost use Rattle.rh_play_tests.specs.Chosen.{chosen, the_shape};

use rh_descriptor::{
    claim_key, decide_desc, open_desc, place_mark, read_word, release_cell, settle_mark, write_word,
};
use rh_interleaving::*;
use rh_ledger::Kind;
use rh_recorder::Touched;
use rh_tagword::{State, Word, pack, unpack, unpack_control};
use rh_turns::Turn;
use rh_words::{First, Known, Part, Piece, Reading, Ref, Request, Rooms, Shape, Side, StepKind};
use std::test::*;

const CELLS: usize = 8;

const WORKERS: usize = 3;

const WORDS: usize = 108;

const SHAPE: Shape = Shape {
    bits: 3,
    workers: WORKERS,
    keys: 0,
    rooms: Rooms {
        descriptors: 2,
        marks: 8,
    },
};

/// The layout of 1 and 9. A cell holds its key plus 1.
const TWO_KEYS: [u64; CELLS] = [0, 0, 0, 0, 2, 10, 0, 0];

const PLAYS: u64 = 30;

// ---- workers

struct Chosen;

impl First<(usize, u64, u64, u64, Request)> for Chosen {
    ghost first = { λ a. chosen the_shape a.0 a.1 a.2 a.3 a.4 };
}

/// A worker that counts and knows what it takes to make this step. What its worker knew, a trace
/// does not tell.
fn side_for(worker: usize, next_number: u64, control: u64, marks_used: u64, ask: Request) -> Side
    ensures { result.known.view ≡ chosen the_shape worker next_number control marks_used ask }
{
    Side {
        worker,
        next_number,
        control,
        marks_used,
        known: Known::start::<Chosen, (usize, u64, u64, u64, Request)>(&(
            worker,
            next_number,
            control,
            marks_used,
            ask,
        )),
    }
}

// ---- the words as they stand

/// Whether the table has this part.
fn has_part(part: Part) -> bool
    ensures { IsTrue result → IsPart the_shape part }
{
    match part {
        Part::Cell(cell) => cell < CELLS,
        Part::Control { worker }
        | Part::Serial { worker }
        | Part::Length { worker }
        | Part::MarkSerial { worker }
        | Part::MarkDesc { worker }
        | Part::MarkEntry { worker } => worker < WORKERS,
        Part::EntryCell { worker, entry }
        | Part::EntryOld { worker, entry }
        | Part::EntryNew { worker, entry } => worker < WORKERS && entry < CELLS,
        Part::Reason { worker, owner } => worker < WORKERS && owner < WORKERS,
        Part::Counter => true,
    }
}

/// The word of a part; none where the table has no such part.
fn word_of(words: &[u64], part: Part) -> Option<u64>
    requires { length words.now ≡ word_count the_shape }
{
    if has_part(part) {
        Some(words[SHAPE.index(part)])
    } else {
        None
    }
}

fn desc_in(word: u64) -> Option<Ref>
    ensures worker { IfSome result (λ d. d.worker < 3) }
    ensures number { IfSome result (λ d. d.number < 2) }
{
    match unpack(word) {
        Some(Word::Desc { worker, number }) if worker < 3 && number < 2 => Some(Ref {
            worker: worker as usize,
            number,
        }),
        _ => None,
    }
}

fn mark_in(word: u64) -> Option<Ref>
    ensures worker { IfSome result (λ x. x.worker < 3) }
    ensures number { IfSome result (λ x. x.number < 8) }
{
    match unpack(word) {
        Some(Word::Mark { worker, number }) if worker < 3 && number < 8 => Some(Ref {
            worker: worker as usize,
            number,
        }),
        _ => None,
    }
}

/// The old value of an entry, where the row of its descriptor is still of it.
fn old_of(words: &[u64], desc: Ref, entry: usize) -> Option<u64>
    requires { length words.now ≡ word_count the_shape }
{
    let worker = desc.worker;
    if word_of(words, Part::Serial { worker })? == desc.number {
        word_of(words, Part::EntryOld { worker, entry })
    } else {
        None
    }
}

/// What the cell of a decided descriptor gets, whose row is still of it: by its entry for that
/// cell.
fn released_of(words: &[u64], desc: Ref, cell: usize) -> Option<(usize, u64)>
    requires { length words.now ≡ word_count the_shape }
    ensures { IfSome result (λ r. r.0 < 8) }
{
    let worker = desc.worker;
    let (serial, state) = unpack_control(word_of(words, Part::Control { worker })?)?;
    for entry in 0..CELLS {
        if word_of(words, Part::EntryCell { worker, entry })? == cell as u64 {
            let value = if serial == desc.number && state == State::Succeeded {
                word_of(words, Part::EntryNew { worker, entry })?
            } else {
                old_of(words, desc, entry)?
            };
            return Some((entry, value));
        }
    }
    None
}

// ---- steps, each with whether it could be made

fn write_again(words: &mut [u64], who: usize, part: Part, word: u64) -> bool
    requires worker { who < 3 }
    requires sized { length words.old ≡ word_count the_shape }
    ensures { length words.new ≡ length words.old }
{
    match part {
        Part::Serial { worker } if worker == who && word < 2 => {
            write_own(words, who, (word, 0), Part::Serial { worker: who }, word)
        }
        Part::MarkSerial { worker } if worker == who && word < 8 => {
            write_own(
                words,
                who,
                (0, word),
                Part::MarkSerial { worker: who },
                word,
            )
        }
        Part::Reason { worker, owner } if worker == who && owner < 3 => {
            write_own(
                words,
                who,
                (0, 0),
                Part::Reason { worker: who, owner },
                word,
            )
        }
        _ => write_row(words, who, part, word),
    }
}

/// A word of a row whose number stands there already.
fn write_row(words: &mut [u64], who: usize, part: Part, word: u64) -> bool
    requires worker { who < 3 }
    requires sized { length words.old ≡ word_count the_shape }
    ensures { length words.new ≡ length words.old }
{
    match part {
        Part::Length { worker } if worker == who => {
            write_own(words, who, (0, 0), Part::Length { worker: who }, word)
        }
        Part::MarkDesc { worker } if worker == who => {
            write_own(words, who, (0, 0), Part::MarkDesc { worker: who }, word)
        }
        Part::MarkEntry { worker } if worker == who => {
            write_own(words, who, (0, 0), Part::MarkEntry { worker: who }, word)
        }
        _ => write_entry(words, who, part, word),
    }
}

fn write_entry(words: &mut [u64], who: usize, part: Part, word: u64) -> bool
    requires worker { who < 3 }
    requires sized { length words.old ≡ word_count the_shape }
    ensures { length words.new ≡ length words.old }
{
    match part {
        Part::EntryCell { worker, entry } if worker == who && entry < 8 => {
            write_own(
                words,
                who,
                (0, 0),
                Part::EntryCell { worker: who, entry },
                word,
            )
        }
        Part::EntryOld { worker, entry } if worker == who && entry < 8 => {
            write_own(
                words,
                who,
                (0, 0),
                Part::EntryOld { worker: who, entry },
                word,
            )
        }
        Part::EntryNew { worker, entry } if worker == who && entry < 8 => {
            write_own(
                words,
                who,
                (0, 0),
                Part::EntryNew { worker: who, entry },
                word,
            )
        }
        _ => false,
    }
}

/// By a worker whose next descriptor and whose next mark have these numbers.
fn write_own(words: &mut [u64], who: usize, numbers: (u64, u64), part: Part, word: u64) -> bool
    requires worker { who < 3 }
    requires sized { length words.old ≡ word_count the_shape }
    requires free { IsFree the_shape (chosen the_shape who numbers.0 0 numbers.1 (Write part word)) part
        word }
    ensures { length words.new ≡ length words.old }
{
    let mut side = side_for(who, numbers.0, 0, numbers.1, Request::Write { part, word });
    write_word(&SHAPE, words, &mut side, part, word);
    true
}

/// Of how many entries it is changes nothing of the word.
fn open_again(words: &mut [u64], who: usize) -> bool
    requires worker { who < 3 }
    requires sized { length words.old ≡ word_count the_shape }
    ensures { length words.new ≡ length words.old }
{
    let worker = who;
    let (Some(number), Some(control)) = (
        word_of(words, Part::Serial { worker }),
        word_of(words, Part::Control { worker }),
    ) else {
        return false;
    };
    if number >= 2 {
        return false;
    }
    let mut side = side_for(who, number, control, 0, Request::Open { entries: 1 });
    open_desc(&SHAPE, words, &mut side, 1);
    true
}

fn claim_again(words: &mut [u64], who: usize) -> bool
    requires worker { who < 3 }
    requires sized { length words.old ≡ word_count the_shape }
    ensures { length words.new ≡ length words.old }
{
    let mut side = side_for(who, 0, 0, 0, Request::Claim);
    claim_key(&SHAPE, words, &mut side);
    true
}

fn read_again(words: &mut [u64], who: usize, part: Part) -> bool
    requires worker { who < 3 }
    requires sized { length words.old ≡ word_count the_shape }
    ensures { length words.new ≡ length words.old }
{
    if !has_part(part) {
        return false;
    }
    let reading = Reading::Word(SHAPE.index(part));
    let mut side = side_for(who, 0, 0, 0, Request::Read(reading));
    read_word(&SHAPE, words, &mut side, reading);
    true
}

/// The old value is not known where the descriptor is stale and another word stood there.
fn place_again(words: &mut [u64], who: usize, cell: usize, touched: Touched) -> bool
    requires worker { who < 3 }
    requires sized { length words.old ≡ word_count the_shape }
    ensures { length words.new ≡ length words.old }
{
    let worker = who;
    let (Some(number), Some(desc), Some(entry)) = (
        word_of(words, Part::MarkSerial { worker }),
        word_of(words, Part::MarkDesc { worker }),
        word_of(words, Part::MarkEntry { worker }),
    ) else {
        return false;
    };
    let Some(desc) = desc_in(desc) else {
        return false;
    };
    if number >= 8 || entry >= 8 || cell >= 8 {
        return false;
    }
    let entry = entry as usize;
    let Some(old) = old_of(words, desc, entry).or(changed_from(touched)) else {
        return touched.left == touched.found;
    };
    let piece = Piece { desc, entry, cell };
    let mut side = side_for(who, 0, 0, number, Request::Place { piece, old });
    place_mark(&SHAPE, words, &mut side, piece, old);
    true
}

/// What a swap found that changed the word.
fn changed_from(touched: Touched) -> Option<u64> {
    (touched.left != touched.found).then_some(touched.found)
}

/// Which mark was named that did not stand there is not known.
fn settle_again(words: &mut [u64], who: usize, cell: usize, touched: Touched) -> bool
    requires worker { who < 3 }
    requires sized { length words.old ≡ word_count the_shape }
    ensures { length words.new ≡ length words.old }
{
    if touched.left == touched.found {
        return true;
    }
    let Some(mark) = mark_in(touched.found) else {
        return false;
    };
    let worker = mark.worker;
    let (Some(desc), Some(entry)) = (
        word_of(words, Part::MarkDesc { worker }),
        word_of(words, Part::MarkEntry { worker }),
    ) else {
        return false;
    };
    let Some(desc) = desc_in(desc) else {
        return false;
    };
    if entry >= 8 || cell >= 8 {
        return false;
    }
    let entry = entry as usize;
    let old = match unpack(touched.left) {
        Some(Word::Desc { .. }) => None,
        _ => Some(old_of(words, desc, entry).unwrap_or(touched.left)),
    };
    let piece = Piece { desc, entry, cell };
    let mut side = side_for(who, 0, 0, 0, Request::Settle { mark, piece, old });
    settle_mark(&SHAPE, words, &mut side, mark, piece, old);
    true
}

/// Which descriptor was named that was not undecided is not known. A withdrawal asks that all marks
/// are used up.
fn decide_again(words: &mut [u64], who: usize, owner: usize, touched: Touched) -> bool
    requires worker { who < 3 }
    requires sized { length words.old ≡ word_count the_shape }
    ensures { length words.new ≡ length words.old }
{
    if touched.left == touched.found {
        return true;
    }
    let Some((number, state)) = unpack_control(touched.left) else {
        return false;
    };
    let may = match state {
        State::Succeeded => true,
        State::Withdrawn => owner == who,
        State::Failed { decider } => decider == who as u64,
        _ => false,
    };
    if !may || owner >= 3 || number >= 2 {
        return false;
    }
    let desc = Ref {
        worker: owner,
        number,
    };
    let mut side = side_for(who, 0, 0, 8, Request::Decide { desc, state });
    decide_desc(&SHAPE, words, &mut side, desc, state);
    true
}

/// Which descriptor was named that did not stand there is not known. Where it is stale, its
/// old value is not known by now.
fn release_again(words: &mut [u64], who: usize, cell: usize, touched: Touched) -> bool
    requires worker { who < 3 }
    requires sized { length words.old ≡ word_count the_shape }
    ensures { length words.new ≡ length words.old }
{
    if touched.left == touched.found {
        return true;
    }
    let Some(desc) = desc_in(touched.found) else {
        return false;
    };
    if cell >= 8 {
        return false;
    }
    let (entry, value) = released_of(words, desc, cell).unwrap_or((0, touched.left));
    let piece = Piece { desc, entry, cell };
    let ask = Request::Release {
        piece,
        state: None,
        value,
    };
    let mut side = side_for(who, 0, 0, 0, ask);
    release_cell(&SHAPE, words, &mut side, piece, None, value);
    true
}

fn step_again(words: &mut [u64], kind: StepKind, who: usize, touched: Touched) -> bool
    requires worker { who < 3 }
    requires sized { length words.old ≡ word_count the_shape }
    ensures { length words.new ≡ length words.old }
{
    match (kind, touched.part) {
        (StepKind::Write, part) => write_again(words, who, part, touched.left),
        (StepKind::Open, Part::Control { worker }) if worker == who => open_again(words, who),
        (StepKind::Read, part) => read_again(words, who, part),
        (StepKind::Place, Part::Cell(cell)) => place_again(words, who, cell, touched),
        (StepKind::Settle, Part::Cell(cell)) => settle_again(words, who, cell, touched),
        (StepKind::Decide, Part::Control { worker }) => decide_again(words, who, worker, touched),
        (StepKind::Release, Part::Cell(cell)) => release_again(words, who, cell, touched),
        (StepKind::Claim, Part::Counter) => claim_again(words, who),
        _ => false,
    }
}

/// Makes the step again, and whether it found and left the same words.
fn made_again(words: &mut [u64], kind: StepKind, who: usize, touched: Touched) -> bool
    requires worker { who < 3 }
    requires sized { length words.old ≡ word_count the_shape }
    ensures { length words.new ≡ length words.old }
{
    let found = word_of(words, touched.part) == Some(touched.found);
    let made = step_again(words, kind, who, touched);
    found && made && word_of(words, touched.part) == Some(touched.left)
}

// ---- random plays

/// The next number of those that look random (Marsaglia 2003).
fn next(number: u64) -> u64 {
    let number = number ^ (number << 13);
    let number = number ^ (number >> 7);
    number ^ (number << 17)
}

/// Workers that have a key each, or claim the keys of one list.
fn new_player(rt: &HostRuntime, kind: Kind, play: u64, random: &mut u64) -> Result<Player, Fail> {
    let mut keys = Vec::new(rt.alloc());
    let mut pieces = Vec::new(rt.alloc());
    for _ in 0..WORKERS {
        *random = next(*random);
        let key = (*random >> 40) % 24;
        keys.push(key)?;
        pieces.push(vec![in rt.alloc(); key]?)?;
    }
    let rooms = SHAPE.rooms;
    if play % 2 == 0 {
        Ok(Player::with_rooms(rt.alloc(), 3, &TWO_KEYS, kind, &pieces, rooms)?)
    } else {
        Ok(Player::share_with_rooms(rt.alloc(), 3, &TWO_KEYS, kind, WORKERS, &keys, rooms)?)
    }
}

#[test]
fn traced_steps_are_made_again(rt: HostRuntime) -> Result<(), Fail> {
    let mut random = 88_172_645_463_325_252;
    let mut steps = 0u64;
    for play in 0..PLAYS {
        let kind = match play % 3 {
            0 => Kind::Insert,
            1 => Kind::Remove,
            _ => Kind::Ask,
        };
        let mut player = new_player(&rt, kind, play, &mut random)?;
        let made = player.shape();
        let shape = Shape {
            bits: made.bits,
            workers: made.workers,
            keys: 0,
            rooms: made.rooms,
        };
        assert_eq!(rt; shape, SHAPE);
        assert_eq!(rt; shape.words(), WORDS);
        let mut words = [0u64; WORDS];
        words[4] = pack(Word::Key(1));
        words[5] = pack(Word::Key(9));
        for _ in 0..400 {
            random = next(random);
            let who = (random >> 40) as usize % WORKERS;
            match player.trace(who) {
                (Turn::Did(kind), Some(touched)) => {
                    steps = steps.saturating_add(1);
                    assert!(rt;
                        made_again(&mut words, kind, who, touched),
                        "{play}: {kind:?} of {who}"
                    );
                }
                (turn, touched) => {
                    assert!(rt;
                        turn != Turn::NoSuchWorker && touched.is_none(),
                        "{play}: {turn:?}"
                    );
                }
            }
            if player.next_round() {
                words[CELLS..WORDS - 1].fill(0);
            }
        }
        for cell in 0..CELLS {
            if player.bits() == 3 {
                assert_eq!(rt;
                    unpack(words[cell]),
                    Some(player.raw(cell)),
                    "{play}: {cell}"
                );
            }
        }
    }
    assert!(rt; steps > 1_000, "{steps}");
    Ok(())
}
