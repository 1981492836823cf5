//! A play, drawn.

ghost use Rattle.std.specs.Prelude.{◌≡◌, ◌+◌, ◌-◌, ◌/◌, ◌≤◌, ◌++◌, List, IfOk, OnOk, length};
ghost use Rattle.std.specs.List.{flat_map};
ghost use Rattle.rh_words.specs.Parts.{cell_count};
ghost use Rattle.rh_svg.specs.Markup.{IsWellFormed};
ghost use Rattle.rh_draw.specs.Changing.{opening};
ghost use Rattle.rh_draw.specs.Columns.{ColumnsAreChanges};
ghost use Rattle.rh_draw.specs.Heads.{head_row, repeated};
ghost use Rattle.rh_draw.specs.Notices.{AreNotices};
ghost use Rattle.rh_draw.specs.Picture.{IsPicture};
ghost use Rattle.rh_draw.specs.Places.{lane_x};
ghost use Rattle.rh_draw.specs.Reading.{ShowsTags};
ghost use Rattle.rh_draw.specs.Rows.{at_first, mark_of, row_lines};
ghost use Rattle.rh_svg.specs.declared.tags.Tag.{Tag};
ghost use Rattle.rh_draw.specs.declared.limits.TheConstants.{HEAD_STEPS, MAX_STEPS};

use crate::boxes::draw_boxes;
use crate::canvas::Canvas;
use crate::columns::{column_sides, column_widths, flag_changes, right_side};
use crate::frame::{draw_all_heads, draw_frame, picture_size, title_right};
use crate::history::{draw_notices, longest_notice};
use crate::places::lane_x;
use crate::records::{Record, Recording, Window, steps_drawn};
use crate::rows::{draw_rounds, draw_rows};
use crate::sight::PictureLayout;
use crate::spans::{Span, list_spans, most_letters};
use crate::words::all_words;
use rh_svg::{Tag, close, open};
use rh_words::Shape;
use std::alloc::{AllocError, Global};

/// The picture of the steps of a window, as the text of an SVG, with a title of these lines.
pub fn draw(
    alloc: Global,
    title: &[Vec<u8>],
    recording: &Recording<'_>,
    window: Window,
) -> Result<Vec<u8>, AllocError>
    requires cells { length recording.now.cells.now ≡ cell_count recording.now.shape.now }
    requires steps { window.steps ≤ MAX_STEPS }
    ensures drawn { IfOk result (λ text. IsPicture title.now recording.now.shape.now
        recording.now.cells.now recording.now.records.now window text.items) }
    ensures well_formed { IfOk result (λ text. IsWellFormed text.items) }
{
    let Recording {
        shape,
        cells,
        records,
        keys,
    } = *recording;
    let (view, spans) = lay_out(alloc, shape, cells, records, window)?;
    let letters = longest_notice(alloc, &view, cells, records, keys)?;
    let size = picture_size(&view, letters, title_right(title));
    let tag = Tag::Svg {
        width: size.0,
        height: size.1,
    };
    let mut canvas = Canvas::new(alloc);
    open(&mut canvas.out, tag)?;
    draw_frame(&mut canvas, title, &view, size)?;
    draw_boxes(&mut canvas, &view, &spans)?;
    draw_lines(alloc, &mut canvas, &view, cells, records, keys)?;
    close(&mut canvas.out, tag)?;
    Ok(canvas.out)
}

// What the records tell. What comes later stands above: a decision crosses the columns, and the
// marks stand above all lines.
fn draw_lines(
    alloc: Global,
    canvas: &mut Canvas,
    view: &PictureLayout,
    cells: &[u64],
    records: &[Record],
    keys: &[Option<u64>],
) -> Result<(), AllocError>
    requires { length cells.now ≡ cell_count view.now.shape }
    ensures { OnOk result ((notices : List Tag) × AreNotices view.now.shape view.now.window
        view.now.right (opening view.now.shape cells.now)
        records.now notices × ShowsTags canvas.old.out.items canvas.new.out.items
        (flat_map (mark_of view.now.window) records.now)
        (notices ++ row_lines view.now.window view.now.shape.workers
        (at_first view.now.shape.workers) records.now)
        (repeated (head_row view.now.shape.workers view.now.flags.items)
        ((view.now.end - 1) / HEAD_STEPS + 1))) }
{
    draw_notices(alloc, canvas, view, cells, records, keys)?;
    draw_rows(alloc, canvas, view, records)?;
    draw_rounds(canvas, view, records)?;
    draw_all_heads(canvas, view)?;
    Ok(())
}

// How the picture is laid out, and what its columns say.
fn lay_out(
    alloc: Global,
    shape: &Shape,
    cells: &[u64],
    records: &[Record],
    window: Window,
) -> Result<(PictureLayout, Vec<Span>), AllocError>
    requires { length cells.now ≡ cell_count shape.now }
    ensures shape { IfOk result (λ out. out.0.shape ≡ shape.now) }
    ensures window { IfOk result (λ out. out.0.window ≡ window) }
    ensures right { IfOk result (λ out. lane_x shape.now.workers ≤ out.0.right) }
    ensures long { IfOk result (λ out. length out.0.flags.items ≡ length cells.now) }
    ensures columns { IfOk result
        (λ out. ColumnsAreChanges shape.now cells.now records.now window out.0.flags.items) }
{
    let mut words = all_words(alloc, shape, cells)?;
    let mut flags = vec![in alloc; 0; cells.len()]?;
    let mut list = Vec::new(alloc);
    flag_changes(shape, window, &mut words, &mut flags, records, &mut list)?;
    let end = steps_drawn(records, window) as u64 + 1;
    let spans = list_spans(alloc, shape, window, cells, &flags, end, records)?;
    let letters = most_letters(alloc, cells.len(), &spans)?;
    let widths = column_widths(alloc, &flags, &letters)?;
    let left = lane_x(shape.workers as u64);
    let sides = column_sides(alloc, &widths, left)?;
    let right = right_side(&widths, left);
    let view = PictureLayout {
        shape: *shape,
        window,
        flags,
        widths,
        sides,
        right,
        end,
    };
    Ok((view, spans))
}
