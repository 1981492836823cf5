//! The words of a table, as the steps left them.

ghost use Rattle.std.specs.Prelude.{◌≡◌, ◌↔◌, List, ℕ, IfOk, IsTrue, length};
ghost use Rattle.rh_words.specs.Parts.{IsPart, cell_count};
ghost use Rattle.rh_rule.specs.Represents.{word_at};
ghost use Rattle.rh_draw.specs.Changing.{Leaves, opening};

use crate::lists::{at, put};
use rh_trace::Touched;
use rh_words::{Part, Shape};
use std::alloc::{AllocError, Global};

// Whether the table has this part.
fn has_part(shape: &Shape, part: Part) -> bool
    ensures { IsTrue result ↔ IsPart shape.now part }
{
    match part {
        Part::Cell(cell) => cell < shape.cells(),
        Part::Control { worker }
        | Part::Serial { worker }
        | Part::Length { worker }
        | Part::MarkSerial { worker }
        | Part::MarkDesc { worker }
        | Part::MarkEntry { worker } => worker < shape.workers,
        Part::EntryCell { worker, entry }
        | Part::EntryOld { worker, entry }
        | Part::EntryNew { worker, entry } => worker < shape.workers && entry < shape.cells(),
        Part::Reason { worker, owner } => worker < shape.workers && owner < shape.workers,
        Part::Counter => true,
    }
}

/// The word of a part.
pub(crate) fn word_at(shape: &Shape, words: &[u64], part: Part) -> u64
    requires { IsPart shape.now part }
    ensures { result ≡ word_at shape.now words.now part }
{
    at(words, shape.index(part) as u64)
}

/// Leaves the word that a step touched as the step left it.
pub(crate) fn follow_words(shape: &Shape, words: &mut [u64], touched: Touched)
    ensures leaves { Leaves shape.now words.old touched words.new }
    ensures alone { (left : List ℕ) → Leaves shape.now words.old touched left → left ≡ words.new }
{
    if has_part(shape, touched.part) {
        put(words, shape.index(touched.part) as u64, touched.left);
    }
}

/// The words of a table with these cells, in which all else is 0.
pub(crate) fn all_words(alloc: Global, shape: &Shape, cells: &[u64]) -> Result<Vec<u64>, AllocError>
    requires { length cells.now ≡ cell_count shape.now }
    ensures { IfOk result (λ words. words.items ≡ opening shape.now cells.now) }
{
    let mut words = Vec::from_slice(alloc, cells)?;
    let rest = vec![in alloc; 0; shape.words() - shape.cells()]?;
    words.extend_from_slice(&rest)?;
    Ok(words)
}
