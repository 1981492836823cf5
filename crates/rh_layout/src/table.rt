//! The test of a layout.

ghost use Rattle.std.specs.Prelude.{◌≡◌, ◌^◌, ◌<◌, ◌↔◌, IsTrue, length};
ghost use Rattle.rh_layout.specs.Round.{cell_behind};
ghost use Rattle.rh_layout.specs.Key.{IsBits};
ghost use Rattle.rh_layout.specs.Layout.{IsLayout, IsPlaced};
ghost use Rattle.rh_layout.specs.Test.{layout_test};

use crate::key::key_in;
use crate::limits::{MAX_BITS, MAX_KEY, MIN_BITS};
use crate::order::{beats, dist};

/// Whether these are the cells of a table of this size and a layout of the keys that they hold. A
/// full table may be one. The test is one pass: it compares each cell with the one before it.
pub fn is_layout(bits: u32, cells: &[u64]) -> bool
    ensures layout { IsTrue result ↔ IsLayout bits cells.now }
    ensures test { result ≡ layout_test bits cells.now }
{
    if bits < MIN_BITS || bits > MAX_BITS || cells.len() != 1 << bits {
        return false;
    }
    for cell in 0..cells.len() {
        if !is_placed(bits, cells, cell) {
            return false;
        }
    }
    true
}

/// Whether the cell is empty, or holds a key that is at home or stands behind one that beats it
/// there.
fn is_placed(bits: u32, cells: &[u64], cell: usize) -> bool
    requires bits { IsBits bits }
    requires size { length cells.now ≡ 2 ^ bits }
    requires cell { cell < 2 ^ bits }
    ensures { IsTrue result ↔ IsPlaced bits cells.now cell }
{
    let Some(key) = key_in(cells[cell]) else {
        return true;
    };
    if key > MAX_KEY {
        return false;
    }
    if dist(bits, cell, key) == 0 {
        return true;
    }
    let before = cell_before(cells.len(), cell);
    match key_in(cells[before]) {
        Some(found) => beats(bits, before, found, key),
        None => false,
    }
}

#[tactic(auto, using(crate::proofs::PlacedLemmas::back))]
fn cell_before(size: usize, cell: usize) -> usize
    requires { cell < size }
    ensures value { result ≡ cell_behind size cell }
    ensures in_table { result < size }
{
    if cell == 0 { size - 1 } else { cell - 1 }
}
