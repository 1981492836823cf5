//! Entries of values, and whether a descriptor may have them.

ghost use Rattle.std.specs.Prelude.{◌≡◌, ◌<◌, ◌↔◌, IsTrue, length};
ghost use Rattle.rh_words.specs.Steps.{AreEntries};
ghost use Rattle.rh_words.specs.Words.{IsPlain};
ghost use Rattle.rh_kcas.specs.Fits.{Fits, IsBehind};
ghost use Rattle.rh_tagword.specs.Word.{IsValue, plain_number};

use rh_layout::Entry;
use rh_tagword::{plain_value, plain_word};
use rh_words::Shape;

/// The entry that changes a cell from one value to another.
pub fn change(cell: usize, old: u64, new: u64) -> Entry
    requires { IsValue old × IsValue new }
    ensures cell { result.cell ≡ cell }
    ensures words { (result.old ≡ plain_number old) × (result.new ≡ plain_number new) }
{
    Entry {
        cell,
        old: plain_word(old),
        new: plain_word(new),
    }
}

/// Whether a descriptor may have these entries: there is one, their cells rise and are cells of the
/// table, and their words are plain.
pub fn are_entries(shape: &Shape, entries: &[Entry]) -> bool
    ensures { IsTrue result ↔ AreEntries shape.now entries.now }
{
    if entries.is_empty() {
        return false;
    }
    for entry in 0..entries.len() {
        if !fits(shape, entries, entry) {
            return false;
        }
    }
    true
}

fn fits(shape: &Shape, entries: &[Entry], entry: usize) -> bool
    requires { entry < length entries.now }
    ensures { IsTrue result ↔ Fits shape.now entries.now entry }
{
    if !is_behind(entries, entry) {
        return false;
    }
    let Entry { cell, old, new } = entries[entry];
    if cell >= shape.cells() {
        return false;
    }
    if !is_plain(old) {
        return false;
    }
    is_plain(new)
}

/// Whether the cell of the entry is behind that of the entry before.
fn is_behind(entries: &[Entry], entry: usize) -> bool
    requires { entry < length entries.now }
    ensures { IsTrue result ↔ IsBehind entries.now entry }
{
    if entry == 0 {
        return true;
    }
    entries[entry - 1].cell < entries[entry].cell
}

fn is_plain(word: u64) -> bool
    ensures { IsTrue result ↔ IsPlain word }
{
    plain_value(word).is_some()
}
