//! Which part of a table a word is.

ghost use Rattle.std.specs.Prelude.{◌≡◌, ◌+◌, ◌<◌};
ghost use Rattle.rh_words.specs.Parts.{IsPart, cell_count, entry_row, index_of};
ghost use Rattle.rh_words.specs.Parts.{mark_row, row_count, row_index, word_count};

use rh_words::{Part, Shape};

/// The part that stands at this word of the table.
pub fn part_at(shape: &Shape, index: usize) -> Part
    requires { index < word_count shape.now }
    ensures part { IsPart shape.now result }
    ensures index { index_of shape.now result ≡ index }
{
    let cells = shape.cells();
    if index < cells {
        return Part::Cell(index);
    }
    if index + 1 == shape.words() {
        return Part::Counter;
    }
    let rows = rows_of_one(shape);
    let beyond = index - cells;
    part_in_rows(shape, beyond / rows, beyond % rows)
}

/// How many words the rows of one worker have.
fn rows_of_one(shape: &Shape) -> usize
    ensures { result ≡ row_count shape.now }
{
    let last = Part::Reason {
        worker: 0,
        owner: shape.workers - 1,
    };
    shape.index(last) + 1 - shape.cells()
}

/// The part at this word of the rows of a worker: its descriptor row, its mark row, and its
/// reasons.
fn part_in_rows(shape: &Shape, worker: usize, row: usize) -> Part
    requires worker { worker < shape.now.workers }
    requires row { row < row_count shape.now }
    ensures part { IsPart shape.now result }
    ensures index { index_of shape.now result ≡ row_index shape.now worker row }
{
    let marks = shape.index(Part::MarkSerial { worker }) - shape.index(Part::Control { worker });
    if row < marks {
        desc_part(shape, worker, row)
    } else {
        mark_part(shape, worker, row - marks)
    }
}

/// The part at this word of a worker's descriptor row.
fn desc_part(shape: &Shape, worker: usize, row: usize) -> Part
    requires worker { worker < shape.now.workers }
    requires row { row < mark_row shape.now 0 }
    ensures part { IsPart shape.now result }
    ensures index { index_of shape.now result ≡ row_index shape.now worker row }
{
    match row {
        0 => Part::Control { worker },
        1 => Part::Serial { worker },
        2 => Part::Length { worker },
        _ => entry_part(shape, worker, (row - 3) / 3, (row - 3) % 3),
    }
}

/// The part at this word of an entry.
fn entry_part(shape: &Shape, worker: usize, entry: usize, word: usize) -> Part
    requires worker { worker < shape.now.workers }
    requires entry { entry < cell_count shape.now }
    requires word { word < 3 }
    ensures part { IsPart shape.now result }
    ensures index { index_of shape.now result ≡ row_index shape.now worker (entry_row entry word) }
{
    let _ = shape;
    match word {
        0 => Part::EntryCell { worker, entry },
        1 => Part::EntryOld { worker, entry },
        _ => Part::EntryNew { worker, entry },
    }
}

/// The part at this word behind a worker's descriptor row.
fn mark_part(shape: &Shape, worker: usize, word: usize) -> Part
    requires worker { worker < shape.now.workers }
    requires word { word < 3 + shape.now.workers }
    ensures part { IsPart shape.now result }
    ensures index { index_of shape.now result ≡ row_index shape.now worker
        (mark_row shape.now word) }
{
    let _ = shape;
    match word {
        0 => Part::MarkSerial { worker },
        1 => Part::MarkDesc { worker },
        2 => Part::MarkEntry { worker },
        _ => Part::Reason {
            worker,
            owner: word - 3,
        },
    }
}
