//! What a picture has beside its steps: background, style sheet, legend, lanes; and the heads.
#![tactic(auto, using(crate::proofs::Showing::nothing))]

ghost use Rattle.std.specs.Prelude.{◌+◌, ◌-◌, ◌/◌, ◌^◌, ◌≤◌, [], ◌∷◌, ◌++◌, codes, decimal, length};
ghost use Rattle.rh_draw.specs.Heads.{below, column_head, head_row, lane_head, repeated};
ghost use Rattle.rh_draw.specs.Heads.{title_lines};
ghost use Rattle.rh_draw.specs.Reading.{Draws, DrawsPlain, line, mark};
ghost use Rattle.rh_svg.specs.Markup.{Nothing};
ghost use Rattle.std.specs.List.{flat_map};
ghost use Rattle.rh_draw.specs.Picture.{legend_lines, legend_marks};

use crate::canvas::Canvas;
use crate::legend::{CAPTIONS, Caption, OUTLINES, SIGNS, STYLE};
use crate::limits::{
    BOTTOM, HEAD_STEPS, INDENT, LEGEND_WIDTH, LETTER, MAX_LETTERS, NUMBERS, TEXT, TITLE, TOP,
};
use crate::lists::at;
use crate::places::{head_y, lane_x, moment_y};
use crate::sight::PictureLayout;
use rh_svg::{Look, Tag, close, leaf, open, put_text};
use std::alloc::AllocError;

/// How wide and how high a picture is, where the longest of what is said has so many letters, and
/// its legend and title reach so far to the right.
pub(crate) fn picture_size(view: &PictureLayout, said: u64, title_right: u64) -> (u64, u64) {
    let right = view.right.saturating_add(room_for(said));
    (right.max(title_right), moment_y(view.end) + BOTTOM)
}

// How wide so many letters are, with what stands beside them.
fn room_for(letters: u64) -> u64
    ensures { result ≤ 2 ^ 40 }
{
    2 * INDENT + LETTER * letters.min(MAX_LETTERS)
}

/// How far a title of these lines reaches to the right, and the legend.
pub(crate) fn title_right(title: &[Vec<u8>]) -> u64 {
    let mut right = LEGEND_WIDTH;
    for (number, line) in title.iter().enumerate() {
        right = right.max(title_x(number as u64) + room_for(line.len() as u64));
    }
    right
}

// Where a line of the title begins: the first one above the legend, the others beside it.
fn title_x(number: u64) -> u64
    ensures { result ≤ 2 ^ 40 }
{
    if number == 0 {
        NUMBERS
    } else {
        LEGEND_WIDTH + INDENT
    }
}

fn draw_title(out: &mut Vec<u8>, title: &[Vec<u8>]) -> Result<(), AllocError>
    ensures { Draws out.old.items out.new.items [] []
        (title_lines title.now) result }
{
    let mut number = 0u64;
    for line in title {
        let tag = Tag::Label {
            x: title_x(number),
            y: TITLE.saturating_add(TEXT.saturating_mul(number.saturating_sub(1))),
            look: Look::Title,
        };
        put_text(out, tag, line)?;
        number = number.saturating_add(1);
    }
    Ok(())
}

/// All of it but the heads of lanes and columns.
pub(crate) fn draw_frame(
    canvas: &mut Canvas,
    title: &[Vec<u8>],
    view: &PictureLayout,
    size: (u64, u64),
) -> Result<(), AllocError>
    ensures { Draws canvas.old.out.items canvas.new.out.items legend_marks legend_lines
        (title_lines title.now) result }
{
    let (width, height) = size;
    let ground = Tag::Box {
        x: 0,
        y: 0,
        width,
        height,
        look: Look::Ground,
    };
    leaf(&mut canvas.out, ground)?;
    draw_fixed(&mut canvas.out)?;
    draw_title(&mut canvas.out, title)?;
    draw_lanes(canvas, view.shape.workers as u64, moment_y(view.end))
}

// What is the same in each picture.
fn draw_fixed(out: &mut Vec<u8>) -> Result<(), AllocError>
    ensures { Draws out.old.items out.new.items legend_marks legend_lines [] result }
{
    put_text(out, Tag::Style, STYLE.as_bytes())?;
    draw_outlines(out)?;
    draw_leaves(out, SIGNS)?;
    draw_captions(out)
}

fn draw_outlines(out: &mut Vec<u8>) -> Result<(), AllocError>
    ensures { DrawsPlain out.old.items out.new.items result }
{
    open(out, Tag::Definitions)?;
    draw_leaves(out, OUTLINES)?;
    close(out, Tag::Definitions)
}

fn draw_leaves(out: &mut Vec<u8>, given: &[Tag]) -> Result<(), AllocError>
    ensures { Draws out.old.items out.new.items (flat_map (λ tag. mark tag Nothing) given.now)
        (flat_map (λ tag. line tag Nothing) given.now) [] result }
{
    for tag in given {
        leaf(out, *tag)?;
    }
    Ok(())
}

fn draw_captions(out: &mut Vec<u8>) -> Result<(), AllocError>
    ensures { DrawsPlain out.old.items out.new.items result }
{
    for caption in CAPTIONS {
        draw_caption(out, *caption)?;
    }
    Ok(())
}

fn draw_caption(out: &mut Vec<u8>, given: Caption) -> Result<(), AllocError>
    ensures { DrawsPlain out.old.items out.new.items result }
{
    let Caption { x, y, says } = given;
    let look = says.look();
    put_text(out, Tag::Label { x, y, look }, says.text().as_bytes())
}

fn draw_lanes(canvas: &mut Canvas, workers: u64, bottom: u64) -> Result<(), AllocError>
    ensures { DrawsPlain canvas.old.out.items canvas.new.out.items result }
{
    for worker in 0..workers {
        let x = lane_x(worker);
        let lane = Tag::Line {
            x,
            y: TOP,
            to_x: x,
            to_y: bottom,
            look: Look::Lane(worker),
        };
        leaf(&mut canvas.out, lane)?;
    }
    Ok(())
}

/// What the lanes and the columns are, at the top and again and again below it.
pub(crate) fn draw_all_heads(canvas: &mut Canvas, view: &PictureLayout) -> Result<(), AllocError>
    ensures { Draws canvas.old.out.items canvas.new.out.items [] []
        (repeated (head_row view.now.shape.workers view.now.flags.items)
        ((view.now.end - 1) / HEAD_STEPS + 1)) result }
{
    for part in 0..view.end.saturating_sub(1) / HEAD_STEPS + 1 {
        draw_heads(canvas, view, head_y(part))?;
    }
    Ok(())
}

fn draw_heads(canvas: &mut Canvas, view: &PictureLayout, y: u64) -> Result<(), AllocError>
    ensures { Draws canvas.old.out.items canvas.new.out.items [] []
        (head_row view.now.shape.workers view.now.flags.items) result }
{
    draw_lane_heads(canvas, view.shape.workers as u64, y)?;
    draw_column_heads(canvas, view, y)
}

fn draw_lane_heads(canvas: &mut Canvas, workers: u64, y: u64) -> Result<(), AllocError>
    ensures { Draws canvas.old.out.items canvas.new.out.items [] [] (below lane_head workers)
        result }
{
    for worker in 0..workers {
        let label = Tag::Label {
            x: lane_x(worker),
            y,
            look: Look::Head,
        };
        canvas.count(label, b"worker ", worker)?;
    }
    Ok(())
}

fn draw_column_heads(canvas: &mut Canvas, view: &PictureLayout, y: u64) -> Result<(), AllocError>
    ensures { Draws canvas.old.out.items canvas.new.out.items [] []
        (below (column_head view.now.flags.items) (length view.now.flags.items)) result }
{
    for cell in 0..view.flags.len() as u64 {
        draw_column_head(canvas, view, y, cell)?;
    }
    Ok(())
}

fn draw_column_head(
    canvas: &mut Canvas,
    view: &PictureLayout,
    y: u64,
    cell: u64,
) -> Result<(), AllocError>
    ensures { Draws canvas.old.out.items canvas.new.out.items [] []
        (column_head view.now.flags.items cell) result }
{
    if at(&view.flags, cell) == 0 {
        return Ok(());
    }
    let label = Tag::Label {
        x: at(&view.sides, cell).saturating_add(at(&view.widths, cell) / 2),
        y,
        look: Look::Head,
    };
    canvas.count(label, b"cell ", cell)
}
