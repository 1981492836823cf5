//! What steps change: words, and by acts the values of cells.

ghost use Rattle.std.specs.Prelude.{◌≡◌, ◌<◌, ◌≤◌, ◌++◌, OnOk};
ghost use Rattle.rh_words.specs.Parts.{cell_count};
ghost use Rattle.rh_draw.specs.Changes.{changed_cells, decided, entry_cells, entry_count, is_act, outcome, set_all};

use crate::lists::put;
use crate::words::word_at;
use rh_tagword::{State, unpack_control};
use rh_trace::Touched;
use rh_words::{Part, Shape};
use std::alloc::AllocError;

/// What a step decided a descriptor to, if it did.
pub(crate) fn decision(touched: Touched) -> Option<State>
    ensures { result ≡ decided touched }
{
    let Part::Control { .. } = touched.part else {
        return None;
    };
    let (_, found) = unpack_control(touched.found)?;
    let (_, left) = unpack_control(touched.left)?;
    outcome(found, left)
}

fn outcome(found: State, left: State) -> Option<State>
    ensures { result ≡ outcome found left }
{
    match found {
        State::Undecided => left.is_decided().then_some(left),
        _ => None,
    }
}

/// Whether the step is the one at which a descriptor succeeds.
pub(crate) fn is_act(touched: Touched) -> bool
    ensures { result ≡ is_act touched }
{
    matches!(decision(touched), Some(State::Succeeded))
}

/// How many entries a worker's row has; none where the table has no such worker.
pub(crate) fn entry_count(shape: &Shape, words: &[u64], worker: usize) -> usize
    ensures count { result ≡ entry_count shape.now words.now worker }
    ensures within { result ≤ cell_count shape.now }
    ensures known { 0 < result → worker < shape.now.workers }
{
    if worker >= shape.workers {
        return 0;
    }
    let length = word_at(shape, words, Part::Length { worker });
    length.min(shape.cells() as u64) as usize
}

/// The cells of which a step changes the word or the value, in place of those that were listed.
pub(crate) fn list_changes(
    shape: &Shape,
    words: &[u64],
    touched: Touched,
    cells: &mut Vec<u64>,
) -> Result<(), AllocError>
    ensures { OnOk result (cells.new.items ≡ changed_cells shape.now words.now touched) }
{
    cells.clear();
    match touched.part {
        Part::Cell(cell) => {
            if touched.left != touched.found {
                cells.push(cell as u64)?;
            }
        }
        Part::Control { worker } => {
            if is_act(touched) {
                list_entries(shape, words, worker, cells)?;
            }
        }
        _ => {}
    }
    Ok(())
}

// The cells that a worker's entries change, in order. (An entry whose two words are the same asks
// for a value, and leaves it.)
fn list_entries(
    shape: &Shape,
    words: &[u64],
    worker: usize,
    cells: &mut Vec<u64>,
) -> Result<(), AllocError>
    ensures { OnOk result (cells.new.items ≡
        cells.old.items ++ entry_cells shape.now words.now worker
        (entry_count shape.now words.now worker)) }
{
    for entry in 0..entry_count(shape, words, worker) {
        let old = word_at(shape, words, Part::EntryOld { worker, entry });
        if word_at(shape, words, Part::EntryNew { worker, entry }) != old {
            cells.push(word_at(shape, words, Part::EntryCell { worker, entry }))?;
        }
    }
    Ok(())
}

/// Puts this word at all these places.
pub(crate) fn put_all(list: &mut [u64], places: &[u64], word: u64)
    ensures { list.new ≡ set_all list.old places.now word }
{
    for place in places {
        put(list, *place, word);
    }
}

/// The values after a step: an act gives the cells of its entries their new words.
pub(crate) fn follow_values(shape: &Shape, words: &[u64], values: &mut [u64], touched: Touched) {
    if let Part::Control { worker } = touched.part {
        if is_act(touched) {
            settle_values(shape, words, values, worker);
        }
    }
}

fn settle_values(shape: &Shape, words: &[u64], values: &mut [u64], worker: usize) {
    for entry in 0..entry_count(shape, words, worker) {
        let cell = word_at(shape, words, Part::EntryCell { worker, entry });
        put(
            values,
            cell,
            word_at(shape, words, Part::EntryNew { worker, entry }),
        );
    }
}
