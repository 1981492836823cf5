//! The moments at which a picture says something: a descriptor is decided, or a mark is settled to
//! one that is over.
#![tactic(auto, using(crate::proofs::Showing::nothing))]

ghost use Rattle.std.specs.Prelude.{◌≡◌, ◌<◌, [], IfOk};
ghost use Rattle.rh_words.specs.Parts.{cell_count};
ghost use Rattle.rh_draw.specs.Changes.{decided};
ghost use Rattle.rh_draw.specs.Notices.{decision_look, desc_named, is_over, late, late_look, notice_line, notice_look, promoted};
ghost use Rattle.rh_draw.specs.Reading.{Draws};
ghost use Rattle.rh_tagword.specs.Control.{control_in};
ghost use Rattle.rh_tagword.specs.Word.{word_in};

use crate::canvas::Canvas;
use crate::changes::{decision, entry_count, is_act};
use crate::limits::{HALF_LETTER, INDENT, LANE, LEFT};
use crate::lists::at;
use crate::places::moment_y;
use crate::sight::{PictureLayout, Sight};
use crate::words::word_at;
use itoa::Buffer;
use rh_play_text::push_texts;
use rh_svg::{Look, Tag, leaf, put_text};
use rh_tagword::{Word, unpack, unpack_control};
use rh_trace::{Touched, push_word};
use rh_words::{Part, Shape};
use std::alloc::AllocError;

/// A line across all lanes and columns at such a moment, and at its end what it says.
pub(crate) fn draw_notice(
    canvas: &mut Canvas,
    view: &PictureLayout,
    sight: &Sight,
    moment: u64,
    touched: Touched,
) -> Result<(), AllocError>
    ensures { Draws canvas.old.out.items canvas.new.out.items []
        (notice_line view.now.right moment
        (notice_look view.now.shape sight.now.words.items touched.part touched)) [] result }
{
    canvas.line.clear();
    let look = push_notice(&mut canvas.line, &view.shape, sight, touched)?;
    draw_line(canvas, view, moment, look)
}

fn draw_line(
    canvas: &mut Canvas,
    view: &PictureLayout,
    moment: u64,
    look: Option<Look>,
) -> Result<(), AllocError>
    ensures { Draws canvas.old.out.items canvas.new.out.items []
        (notice_line view.now.right moment look) [] result }
{
    let Some(look) = look else {
        return Ok(());
    };
    let y = moment_y(moment);
    let line = Tag::Line {
        x: LEFT - LANE / 2,
        y,
        to_x: view.right,
        to_y: y,
        look,
    };
    leaf(&mut canvas.out, line)?;
    let label = Tag::Label {
        x: view.right.saturating_add(INDENT),
        y: y + HALF_LETTER,
        look: Look::Saying,
    };
    put_text(&mut canvas.out, label, &canvas.line)
}

/// Appends what a step says, and answers how its line looks, if it says something.
pub(crate) fn push_notice(
    line: &mut Vec<u8>,
    shape: &Shape,
    sight: &Sight,
    touched: Touched,
) -> Result<Option<Look>, AllocError>
    ensures { IfOk result
        (λ look. look ≡ notice_look shape.now sight.now.words.items touched.part touched) }
{
    match touched.part {
        Part::Cell(cell) => push_late(line, cell, late(shape, &sight.words, touched)),
        Part::Control { worker } => push_decision(line, shape, sight, worker, touched),
        _ => Ok(None),
    }
}

// ---- decisions

fn push_decision(
    line: &mut Vec<u8>,
    shape: &Shape,
    sight: &Sight,
    worker: usize,
    touched: Touched,
) -> Result<Option<Look>, AllocError>
    ensures { IfOk result (λ look. look ≡ decision_look (decided touched)) }
{
    if decision(touched).is_none() {
        return Ok(None);
    }
    push_verdict(line, worker, touched.left)?;
    if is_act(touched) {
        push_act(line, shape, sight, worker)?;
        Ok(Some(Look::Act))
    } else {
        Ok(Some(Look::Decision))
    }
}

// Whose descriptor was decided, and how.
fn push_verdict(line: &mut Vec<u8>, worker: usize, control: u64) -> Result<(), AllocError> {
    let mut buffer = Buffer::new();
    let owner = buffer.format(worker).as_bytes();
    push_texts(line, &[b"desc ", owner, b" "])?;
    push_word(line, Part::Control { worker }, control)
}

// What an act changes. One that changes nothing shows that no cell from the key's home on has it.
fn push_act(
    line: &mut Vec<u8>,
    shape: &Shape,
    sight: &Sight,
    worker: usize,
) -> Result<(), AllocError> {
    let before = line.len();
    push_entries(line, shape, sight, worker)?;
    if line.len() == before {
        push_absence(line, sight.key)?;
    }
    Ok(())
}

fn push_absence(line: &mut Vec<u8>, key: Option<u64>) -> Result<(), AllocError> {
    let Some(key) = key else {
        return push_texts(line, &[b"; nothing changes: a key is not there"]);
    };
    let mut buffer = Buffer::new();
    let key = buffer.format(key).as_bytes();
    push_texts(line, &[b"; nothing changes: key ", key, b" is not there"])
}

fn push_entries(
    line: &mut Vec<u8>,
    shape: &Shape,
    sight: &Sight,
    worker: usize,
) -> Result<(), AllocError> {
    for entry in 0..entry_count(shape, &sight.words, worker) {
        push_entry(line, shape, sight, worker, entry)?;
    }
    Ok(())
}

fn push_entry(
    line: &mut Vec<u8>,
    shape: &Shape,
    sight: &Sight,
    worker: usize,
    entry: usize,
) -> Result<(), AllocError>
    requires worker { worker < shape.now.workers }
    requires entry { entry < cell_count shape.now }
{
    let cell = word_at(shape, &sight.words, Part::EntryCell { worker, entry });
    let new = word_at(shape, &sight.words, Part::EntryNew { worker, entry });
    push_change(line, cell, at(&sight.values, cell), new)
}

// What becomes of the value of a cell, if it becomes another one.
fn push_change(line: &mut Vec<u8>, cell: u64, old: u64, new: u64) -> Result<(), AllocError> {
    if old == new {
        return Ok(());
    }
    let mut buffer = Buffer::new();
    let cell = buffer.format(cell).as_bytes();
    push_texts(line, &[b"; cell ", cell, b": "])?;
    push_word(line, Part::Cell(0), old)?;
    push_texts(line, &[b" -> "])?;
    push_word(line, Part::Cell(0), new)
}

// ---- late promotions

// The worker and the serial number of the descriptor that a word refers to.
fn desc_in(word: u64) -> Option<(u64, u64)>
    ensures { result ≡ desc_named (word_in word) }
{
    match unpack(word) {
        Some(Word::Desc { worker, number }) => Some((worker, number)),
        _ => None,
    }
}

// Those of the descriptor to which the step swapped a cell.
fn promotion(touched: Touched) -> Option<(u64, u64)>
    ensures { result ≡ promoted touched }
{
    if touched.left == touched.found {
        None
    } else {
        desc_in(touched.left)
    }
}

// Whether the descriptor of this number is decided by this control, or it is stale.
fn is_over(number: u64, control: u64) -> bool
    ensures { result ≡ is_over number (control_in control) }
{
    match unpack_control(control) {
        Some((serial, state)) => {
            if number == serial {
                state.is_decided()
            } else {
                number < serial
            }
        }
        None => false,
    }
}

// Those of the descriptor to which the step swapped a cell, if that was over by then.
fn late(shape: &Shape, words: &[u64], touched: Touched) -> Option<(u64, u64)>
    ensures { result ≡ late shape.now words.now (promoted touched) }
{
    let (owner, number) = promotion(touched)?;
    if owner >= shape.workers as u64 {
        return None;
    }
    let worker = owner as usize;
    let control = word_at(shape, words, Part::Control { worker });
    is_over(number, control).then_some((owner, number))
}

fn push_late(
    line: &mut Vec<u8>,
    cell: usize,
    desc: Option<(u64, u64)>,
) -> Result<Option<Look>, AllocError>
    ensures { IfOk result (λ look. look ≡ late_look desc) }
{
    let Some((owner, number)) = desc else {
        return Ok(None);
    };
    let (mut first, mut second, mut third) = (Buffer::new(), Buffer::new(), Buffer::new());
    let owner = first.format(owner).as_bytes();
    let number = second.format(number).as_bytes();
    let cell = third.format(cell).as_bytes();
    push_texts(
        line,
        &[
            b"late promotion: desc ",
            owner,
            b" ",
            number,
            b" in cell ",
            cell,
        ],
    )?;
    Ok(Some(Look::Late))
}
