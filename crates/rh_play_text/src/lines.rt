//! The lines, each appended whole. Where a growth was refused, the text is as it was.

ghost use Rattle.rh_play_text.specs.Appending.{Prints};
ghost use Rattle.rh_play_text.specs.Lines.{end_line, key_line, raw_line, reference_line};
ghost use Rattle.rh_play_text.specs.Lines.{rest_line, round_line, tally_line, turn_line, until_line};

use crate::appending::push_texts;
use crate::endings::{Last, Rest, kind_word};
use itoa::Buffer;
use rh_ledger::Tally;
use rh_tagword::Word;
use rh_words::StepKind;
use std::alloc::AllocError;

/// `turn W N LAST`: so many turns of this worker were asked for, and the last came to this.
pub fn push_turn(out: &mut Vec<u8>, worker: u64, turns: u64, last: Last) -> Result<(), AllocError>
    ensures { Prints out.old.items out.new.items (turn_line worker turns last) result }
{
    let (mut first, mut second) = (Buffer::new(), Buffer::new());
    let worker = first.format(worker).as_bytes();
    let turns = second.format(turns).as_bytes();
    let last = last.word().as_bytes();
    push_texts(out, &[b"turn ", worker, b" ", turns, b" ", last, b"\n"])
}

/// `until W KIND LAST`: turns of this worker until one makes such a step, of which the last came to
/// this.
pub fn push_until(
    out: &mut Vec<u8>,
    worker: u64,
    step: StepKind,
    last: Last,
) -> Result<(), AllocError>
    ensures { Prints out.old.items out.new.items (until_line worker step last) result }
{
    let mut first = Buffer::new();
    let worker = first.format(worker).as_bytes();
    let kind = kind_word(step).as_bytes();
    let last = last.word().as_bytes();
    push_texts(out, &[b"until ", worker, b" ", kind, b" ", last, b"\n"])
}

/// `rest finished`, `rest spent` or `rest limit`.
pub fn push_rest(out: &mut Vec<u8>, rest: Rest) -> Result<(), AllocError>
    ensures { Prints out.old.items out.new.items (rest_line rest) result }
{
    push_texts(out, &[b"rest ", rest.word().as_bytes(), b"\n"])
}

/// `round yes` where the next round began, else `round no`.
pub fn push_round(out: &mut Vec<u8>, began: bool) -> Result<(), AllocError>
    ensures { Prints out.old.items out.new.items (round_line began) result }
{
    let text: &[u8] = if began { b"round yes\n" } else { b"round no\n" };
    push_texts(out, &[text])
}

/// What the word of a cell says: `raw CELL key K`, `raw CELL mark W N` or `raw CELL desc W N`. An
/// empty cell has no line.
pub fn push_raw(out: &mut Vec<u8>, cell: usize, word: Word) -> Result<(), AllocError>
    ensures { Prints out.old.items out.new.items (raw_line cell word) result }
{
    match word {
        Word::Empty => Ok(()),
        Word::Key(key) => push_key(out, cell, key),
        Word::Mark { worker, number } => push_reference(out, cell, b" mark ", worker, number),
        Word::Desc { worker, number } => push_reference(out, cell, b" desc ", worker, number),
    }
}

fn push_key(out: &mut Vec<u8>, cell: usize, key: u64) -> Result<(), AllocError>
    ensures { Prints out.old.items out.new.items (key_line cell key) result }
{
    let (mut first, mut second) = (Buffer::new(), Buffer::new());
    let cell = first.format(cell).as_bytes();
    let key = second.format(key).as_bytes();
    push_texts(out, &[b"raw ", cell, b" key ", key, b"\n"])
}

fn push_reference(
    out: &mut Vec<u8>,
    cell: usize,
    name: &[u8],
    worker: u64,
    number: u64,
) -> Result<(), AllocError>
    ensures { Prints out.old.items out.new.items
        (reference_line cell name.now worker number) result }
{
    let (mut first, mut second, mut third) = (Buffer::new(), Buffer::new(), Buffer::new());
    let cell = first.format(cell).as_bytes();
    let worker = second.format(worker).as_bytes();
    let number = third.format(number).as_bytes();
    push_texts(out, &[b"raw ", cell, name, worker, b" ", number, b"\n"])
}

/// `read R added A removed D found F`.
pub fn push_tally(out: &mut Vec<u8>, tally: Tally) -> Result<(), AllocError>
    ensures { Prints out.old.items out.new.items (tally_line tally) result }
{
    let (mut first, mut second, mut third, mut fourth) = (
        Buffer::new(),
        Buffer::new(),
        Buffer::new(),
        Buffer::new(),
    );
    let read = first.format(tally.read).as_bytes();
    let added = second.format(tally.added).as_bytes();
    let removed = third.format(tally.removed).as_bytes();
    let found = fourth.format(tally.found).as_bytes();
    let texts: [&[u8]; 9] = [
        b"read ",
        read,
        b" added ",
        added,
        b" removed ",
        removed,
        b" found ",
        found,
        b"\n",
    ];
    push_texts(out, &texts)
}

/// `finished` where all workers are finished at the end of a play, else `unfinished`.
pub fn push_end(out: &mut Vec<u8>, finished: bool) -> Result<(), AllocError>
    ensures { Prints out.old.items out.new.items (end_line finished) result }
{
    let text: &[u8] = if finished {
        b"finished\n"
    } else {
        b"unfinished\n"
    };
    push_texts(out, &[text])
}
