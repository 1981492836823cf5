//! What stands in the cells from one moment to another.
#![tactic(auto, using(crate::proofs::Showing::nothing))]

ghost use Rattle.rh_draw.specs.Reading.{DrawsPlain};

use crate::canvas::Canvas;
use crate::limits::{GAP, HEAD_STEPS, INDENT, TEXT};
use crate::lists::at;
use crate::places::{head_y, moment_y};
use crate::sight::PictureLayout;
use crate::spans::Span;
use rh_svg::{Look, Tag, leaf};
use rh_tagword::{Word, unpack};
use std::alloc::AllocError;

fn look_of(word: u64) -> Look {
    match unpack(word) {
        Some(Word::Empty) => Look::Empty,
        Some(Word::Key(_)) => Look::Key,
        Some(Word::Mark { worker, .. }) => Look::Mark(worker),
        Some(Word::Desc { worker, .. }) => Look::Desc(worker),
        None => Look::Odd,
    }
}

/// The boxes of these spans, with their words.
pub(crate) fn draw_boxes(
    canvas: &mut Canvas,
    view: &PictureLayout,
    spans: &[Span],
) -> Result<(), AllocError>
    ensures { DrawsPlain canvas.old.out.items canvas.new.out.items result }
{
    for span in spans {
        draw_box(canvas, view, *span)?;
        draw_again(canvas, view, *span)?;
    }
    Ok(())
}

fn draw_box(canvas: &mut Canvas, view: &PictureLayout, span: Span) -> Result<(), AllocError>
    ensures { DrawsPlain canvas.old.out.items canvas.new.out.items result }
{
    let x = at(&view.sides, span.cell);
    let y = moment_y(span.since);
    let tag = Tag::Box {
        x: x.saturating_add(GAP),
        y,
        width: at(&view.widths, span.cell).saturating_sub(2 * GAP),
        height: moment_y(span.until).saturating_sub(y),
        look: look_of(span.word),
    };
    leaf(&mut canvas.out, tag)?;
    draw_words(canvas, x, y, span)
}

// The word below this height, and the value.
fn draw_words(canvas: &mut Canvas, x: u64, y: u64, span: Span) -> Result<(), AllocError>
    ensures { DrawsPlain canvas.old.out.items canvas.new.out.items result }
{
    let label = Tag::Label {
        x: x.saturating_add(INDENT),
        y: y.saturating_add(TEXT),
        look: Look::Word,
    };
    canvas.say_word(label, span.word)?;
    draw_value(canvas, x, y, span)
}

// The value, where the word does not say it.
fn draw_value(canvas: &mut Canvas, x: u64, y: u64, span: Span) -> Result<(), AllocError>
    ensures { DrawsPlain canvas.old.out.items canvas.new.out.items result }
{
    if span.word == span.value {
        return Ok(());
    }
    let label = Tag::Label {
        x: x.saturating_add(INDENT),
        y: y.saturating_add(2 * TEXT),
        look: Look::Value,
    };
    canvas.say_word(label, span.value)
}

// They stand again below each head of the column that the box reaches.
fn draw_again(canvas: &mut Canvas, view: &PictureLayout, span: Span) -> Result<(), AllocError>
    ensures { DrawsPlain canvas.old.out.items canvas.new.out.items result }
{
    let x = at(&view.sides, span.cell);
    let first = span.since.div_ceil(HEAD_STEPS).max(1);
    for part in first..span.until.div_ceil(HEAD_STEPS) {
        draw_words(canvas, x, head_y(part), span)?;
    }
    Ok(())
}
