//! What stood in the cells that change, from one moment to another.

ghost use Rattle.std.specs.Prelude.{◌≡◌, length};
ghost use Rattle.rh_words.specs.Parts.{cell_count};

use crate::changes::{list_changes, put_all};
use crate::lists::{at, put};
use crate::records::{Record, Window};
use crate::sight::Sight;
use rh_trace::{Traced, push_word};
use rh_words::{Part, Shape};
use std::alloc::{AllocError, Global};

/// A word stood in a cell, which stood for a value, from one moment until another.
#[derive(Clone, Copy)]
pub(crate) struct Span {
    pub(crate) cell: u64,
    pub(crate) word: u64,
    pub(crate) value: u64,
    pub(crate) since: u64,
    pub(crate) until: u64,
}

fn span_of(sight: &Sight, cell: u64, until: u64) -> Span {
    Span {
        cell,
        word: at(&sight.words, cell),
        value: at(&sight.values, cell),
        since: at(&sight.since, cell),
        until,
    }
}

/// The spans of the cells with flags, in the order in which they end. The last ones end at `end`.
pub(crate) fn list_spans(
    alloc: Global,
    shape: &Shape,
    window: Window,
    cells: &[u64],
    flags: &[u64],
    end: u64,
    records: &[Record],
) -> Result<Vec<Span>, AllocError>
    requires { length cells.now ≡ cell_count shape.now }
{
    let mut sight = Sight::new(alloc, shape, cells)?;
    let mut spans = Vec::new(alloc);
    let mut list = Vec::new(alloc);
    for record in records {
        if let Record::Step(step) = record {
            pass_step(shape, window, &mut sight, step, &mut list, &mut spans)?;
        }
    }
    for (cell, flag) in flags.iter().enumerate() {
        if *flag != 0 {
            spans.push(span_of(&sight, cell as u64, end))?;
        }
    }
    Ok(spans)
}

// Adds the spans that a step ends, and goes on. Steps after the window end none: the last spans
// show what stands at its end.
fn pass_step(
    shape: &Shape,
    window: Window,
    sight: &mut Sight,
    step: &Traced,
    list: &mut Vec<u64>,
    spans: &mut Vec<Span>,
) -> Result<(), AllocError> {
    if window.is_before(step.number) {
        return Ok(());
    }
    if window.has(step.number) {
        let moment = window.moment(step.number);
        list_changes(shape, &sight.words, step.touched, list)?;
        for cell in &*list {
            spans.push(span_of(sight, *cell, moment))?;
        }
        put_all(&mut sight.since, list, moment);
    }
    sight.follow(shape, step.touched);
    Ok(())
}

/// How many letters the longest text of each cell has.
pub(crate) fn most_letters(
    alloc: Global,
    cells: usize,
    spans: &[Span],
) -> Result<Vec<u64>, AllocError> {
    let mut most = vec![in alloc; 0; cells]?;
    let mut line = Vec::new(alloc);
    for span in spans {
        let letters = letters_of(&mut line, span.word)?.max(letters_of(&mut line, span.value)?);
        let most_yet = at(&most, span.cell);
        put(&mut most, span.cell, most_yet.max(letters));
    }
    Ok(most)
}

// The line is room for them.
fn letters_of(line: &mut Vec<u8>, word: u64) -> Result<u64, AllocError> {
    line.clear();
    push_word(line, Part::Cell(0), word)?;
    Ok(line.len() as u64)
}
