//! Which cells have a column, and where.

ghost use Rattle.std.specs.Prelude.{◌≡◌, ◌<◌, ◌≤◌, ℕ, OnOk, length, slice_index};
ghost use Rattle.rh_draw.specs.Changing.{IsChanged};
ghost use Rattle.rh_draw.specs.Columns.{Flags, FlagsStep};

use crate::changes::{list_changes, put_all};
use crate::limits::{INDENT, LETTER, MAX_LETTERS};
use crate::lists::at;
use crate::records::{Record, Window};
use crate::words::follow_words;
use rh_trace::Traced;
use rh_words::Shape;
use std::alloc::{AllocError, Global};

/// Flags the cells of which a step within the window changes the word or the value, by 1. The words
/// are those before the first record, and the list is for what one step changes.
pub(crate) fn flag_changes(
    shape: &Shape,
    window: Window,
    words: &mut [u64],
    flags: &mut [u64],
    records: &[Record],
    cells: &mut Vec<u64>,
) -> Result<(), AllocError>
    requires { (cell : ℕ) → slice_index flags.old cell ≡ 0 }
    ensures { OnOk result ((cell : ℕ) → cell < length flags.old →
        Flags (slice_index flags.new cell)
        (IsChanged shape.now words.old records.now window cell)) }
{
    for record in records {
        if let Record::Step(step) = record {
            flag_step(shape, window, words, flags, step, cells)?;
            follow_words(shape, words, step.touched);
        }
    }
    Ok(())
}

fn flag_step(
    shape: &Shape,
    window: Window,
    words: &[u64],
    flags: &mut [u64],
    step: &Traced,
    cells: &mut Vec<u64>,
) -> Result<(), AllocError>
    ensures { OnOk result (FlagsStep shape.now window words.now step.now flags.old flags.new) }
{
    if window.has(step.number) {
        list_changes(shape, words, step.touched, cells)?;
        put_all(flags, cells, 1);
    }
    Ok(())
}

/// How wide the column of a cell is whose longest text has so many letters: its head has room too.
fn column_width(cell: u64, letters: u64) -> u64 {
    let head = 6 + cell.checked_ilog10().unwrap_or(0) as u64;
    2 * INDENT + LETTER * letters.max(head).min(MAX_LETTERS)
}

/// How wide each column is, by the letters of its longest text; 0 where a cell has none.
pub(crate) fn column_widths(
    alloc: Global,
    flags: &[u64],
    letters: &[u64],
) -> Result<Vec<u64>, AllocError> {
    let mut widths = Vec::new(alloc);
    for (cell, flag) in flags.iter().enumerate() {
        let cell = cell as u64;
        if *flag == 0 {
            widths.push(0)?;
        } else {
            widths.push(column_width(cell, at(letters, cell)))?;
        }
    }
    Ok(widths)
}

/// Where the left side of each column stands, beside those before it, from this place on.
pub(crate) fn column_sides(
    alloc: Global,
    widths: &[u64],
    left: u64,
) -> Result<Vec<u64>, AllocError> {
    let mut sides = Vec::new(alloc);
    let mut side = left;
    for width in widths {
        sides.push(side)?;
        side = side.saturating_add(*width);
    }
    Ok(sides)
}

/// The right side of the last of them.
pub(crate) fn right_side(widths: &[u64], left: u64) -> u64
    ensures { left ≤ result }
{
    let mut side = left;
    for width in widths {
        side = side.saturating_add(*width);
    }
    side
}
