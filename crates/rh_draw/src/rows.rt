//! The rows of the steps: numbers, marks and lines of helping; and where rounds begin.
#![tactic(auto, using(crate::proofs::Showing::nothing))]

ghost use Rattle.std.specs.Prelude.{◌≡◌, ◌<◌, ◌^◌, [], ◌∷◌, None, get_or};
ghost use Rattle.std.specs.List.{flat_map};
ghost use Rattle.rh_draw.specs.Places.{lane_x};
ghost use Rattle.rh_draw.specs.Reading.{Draws, DrawsPlain};
ghost use Rattle.rh_draw.specs.Rows.{at_after, at_first, at_then, helped, owner_of, row_owner};
ghost use Rattle.rh_draw.specs.Rows.{desc_owner, help_line, mark_of, record_lines, round_mark, row_lines};
ghost use Rattle.rh_svg.specs.declared.tags.Tag.TheVariants.{Mark};
ghost use Rattle.rh_tagword.specs.Word.{word_in};

use crate::canvas::Canvas;
use crate::limits::{HALF_LETTER, NUMBERS, ROUNDS, ROW};
use crate::places::{lane_x, moment_y};
use crate::records::Record;
use crate::sight::PictureLayout;
use rh_svg::{Look, Tag, close, leaf, open, put_text};
use rh_tagword::{Word, unpack};
use rh_trace::{Touched, Traced};
use rh_words::{Part, StepKind};
use std::alloc::{AllocError, Global};

fn desc_owner(word: u64) -> Option<u64>
    ensures { result ≡ desc_owner (word_in word) }
{
    match unpack(word) {
        Some(Word::Desc { worker, .. }) => Some(worker),
        _ => None,
    }
}

// Of which worker's descriptor a step reads or writes the row, or that of a mark for it.
fn row_owner(touched: Touched) -> Option<u64>
    ensures { result ≡ row_owner touched.part touched }
{
    match touched.part {
        Part::Control { worker }
        | Part::Serial { worker }
        | Part::Length { worker }
        | Part::EntryCell { worker, .. }
        | Part::EntryOld { worker, .. }
        | Part::EntryNew { worker, .. } => Some(worker as u64),
        Part::Reason { owner, .. } => Some(owner as u64),
        Part::MarkDesc { .. } => desc_owner(touched.left),
        Part::Cell(_) | Part::MarkSerial { .. } | Part::MarkEntry { .. } | Part::Counter => None,
    }
}

// For each worker, whose descriptor it is at.
fn go_on(whose: &mut Vec<Option<u64>>, step: &Traced)
    ensures { whose.new.items ≡ at_then whose.old.items step.now }
{
    if let Some(owner) = row_owner(step.touched) {
        if step.worker < whose.len() {
            whose[step.worker] = Some(owner);
        }
    }
}

fn owner_for(whose: &[Option<u64>], worker: usize) -> Option<u64>
    ensures { result ≡ get_or whose.now worker None }
{
    if worker < whose.len() {
        whose[worker]
    } else {
        None
    }
}

// Whose descriptor or mark a step is about: by whose descriptor its worker is at, with it.
fn owner_of(whose: Option<u64>, step: &Traced) -> Option<u64>
    ensures { result ≡ owner_of whose step.now }
{
    match step.touched.part {
        Part::Cell(_) => match step.kind {
            StepKind::Read => None,
            _ => whose,
        },
        Part::Counter => None,
        Part::MarkSerial { worker } | Part::MarkDesc { worker } | Part::MarkEntry { worker } => {
            if worker == step.worker {
                whose
            } else {
                Some(worker as u64)
            }
        }
        _ => row_owner(step.touched),
    }
}

// The other worker about whose descriptor or mark a step is, if it is about one.
fn helped_worker(whose: &[Option<u64>], step: &Traced) -> Option<u64>
    ensures { result ≡ helped whose.now step.now }
{
    match owner_of(owner_for(whose, step.worker), step) {
        Some(owner) => {
            if owner == step.worker as u64 {
                None
            } else {
                Some(owner)
            }
        }
        None => None,
    }
}

fn draw_help(canvas: &mut Canvas, worker: u64, y: u64, other: Option<u64>) -> Result<(), AllocError>
    ensures { Draws canvas.old.out.items canvas.new.out.items [] (help_line worker y other) []
        result }
{
    let Some(other) = other else {
        return Ok(());
    };
    let (x, to_x) = (lane_x(worker), lane_x(other));
    let look = Look::Help(other);
    let line = Tag::Line {
        x,
        y,
        to_x,
        to_y: y,
        look,
    };
    leaf(&mut canvas.out, line)?;
    leaf(&mut canvas.out, Tag::Dot { x: to_x, y, look })
}

// The mark of a step, in the lane of its worker; on hover it tells the line of the step.
fn draw_mark(canvas: &mut Canvas, y: u64, step: &Traced) -> Result<(), AllocError>
    ensures { Draws canvas.old.out.items canvas.new.out.items
        (Mark (lane_x step.now.worker) y step.now.kind ∷ []) [] [] result }
{
    let tag = Tag::Mark {
        x: lane_x(step.worker as u64),
        y,
        kind: step.kind,
    };
    open(&mut canvas.out, tag)?;
    canvas.say_step(Tag::Title, step)?;
    close(&mut canvas.out, tag)
}

fn draw_row(
    canvas: &mut Canvas,
    y: u64,
    step: &Traced,
    helped: Option<u64>,
) -> Result<(), AllocError>
    requires { y < 2 ^ 32 }
    ensures { Draws canvas.old.out.items canvas.new.out.items
        (Mark (lane_x step.now.worker) y step.now.kind ∷ [])
        (help_line step.now.worker y helped) [] result }
{
    let label = Tag::Label {
        x: NUMBERS,
        y: y + HALF_LETTER,
        look: Look::Number,
    };
    canvas.count(label, b"", step.number)?;
    draw_help(canvas, step.worker as u64, y, helped)?;
    draw_mark(canvas, y, step)
}

// A line across all lanes, between the steps, beside what the columns say.
fn draw_round(canvas: &mut Canvas, workers: u64, moment: u64) -> Result<(), AllocError>
    ensures { Draws canvas.old.out.items canvas.new.out.items []
        (round_mark workers moment ∷ []) [] result }
{
    let y = moment_y(moment) + ROW / 2;
    let line = Tag::Line {
        x: ROUNDS,
        y,
        to_x: lane_x(workers),
        to_y: y,
        look: Look::Round,
    };
    leaf(&mut canvas.out, line)
}

fn draw_record(
    canvas: &mut Canvas,
    view: &PictureLayout,
    whose: &mut Vec<Option<u64>>,
    given: Record,
) -> Result<(), AllocError>
    ensures drawn { Draws canvas.old.out.items canvas.new.out.items
        (mark_of view.now.window given)
        (record_lines view.now.window view.now.shape.workers whose.new.items given) [] result }
    ensures goes_on { whose.new.items ≡ at_after whose.old.items given }
{
    match given {
        Record::Step(step) => {
            go_on(whose, &step);
            if !view.window.has(step.number) {
                return Ok(());
            }
            let y = moment_y(view.window.moment(step.number));
            draw_row(canvas, y, &step, helped_worker(whose, &step))
        }
        Record::Round { next } => {
            if !view.window.has_before(next) {
                return Ok(());
            }
            draw_round(canvas, view.shape.workers as u64, next - view.window.from)
        }
    }
}

/// The rows of the steps of the window, and the rounds that begin there.
pub(crate) fn draw_rows(
    alloc: Global,
    canvas: &mut Canvas,
    view: &PictureLayout,
    records: &[Record],
) -> Result<(), AllocError>
    ensures { Draws canvas.old.out.items canvas.new.out.items
        (flat_map (mark_of view.now.window) records.now)
        (row_lines view.now.window view.now.shape.workers
        (at_first view.now.shape.workers) records.now) [] result }
{
    let mut whose = vec![in alloc; None; view.shape.workers]?;
    for record in records {
        draw_record(canvas, view, &mut whose, *record)?;
    }
    Ok(())
}

/// How many rounds begin between two steps, beside their line.
pub(crate) fn draw_rounds(
    canvas: &mut Canvas,
    view: &PictureLayout,
    records: &[Record],
) -> Result<(), AllocError>
    ensures { DrawsPlain canvas.old.out.items canvas.new.out.items result }
{
    let mut rounds = 0u64;
    for (place, record) in records.iter().enumerate() {
        let is_last = !matches!(records.get(place + 1), Some(Record::Round { .. }));
        count_round(canvas, view, *record, is_last, &mut rounds)?;
    }
    Ok(())
}

// Counts a round, and says how many they are with the last one of those before a step.
fn count_round(
    canvas: &mut Canvas,
    view: &PictureLayout,
    given: Record,
    is_last: bool,
    rounds: &mut u64,
) -> Result<(), AllocError>
    ensures { DrawsPlain canvas.old.out.items canvas.new.out.items result }
{
    let Record::Round { next } = given else {
        *rounds = 0;
        return Ok(());
    };
    *rounds = rounds.saturating_add(1);
    if is_last && view.window.has_before(next) {
        say_rounds(canvas, next - view.window.from, *rounds)
    } else {
        Ok(())
    }
}

fn say_rounds(canvas: &mut Canvas, moment: u64, rounds: u64) -> Result<(), AllocError>
    ensures { DrawsPlain canvas.old.out.items canvas.new.out.items result }
{
    let label = Tag::Label {
        x: NUMBERS,
        y: moment_y(moment) + ROW / 2 + HALF_LETTER,
        look: Look::Number,
    };
    if rounds == 1 {
        put_text(&mut canvas.out, label, b"round")
    } else {
        canvas.count(label, b"rounds: ", rounds)
    }
}
