//! Removal in place, by backward shift.

ghost use Rattle.std.specs.Prelude.{◌≡◌, ℕ, ◌+◌, ◌^◌, ◌<◌, length, slice_index};
ghost use Rattle.std.specs.FinSet as set;
ghost use Rattle.rh_layout.specs.Round.{steps_round, cell_ahead};
ghost use Rattle.rh_layout.specs.Key.{IsBits, IsKey};
ghost use Rattle.rh_layout.specs.Order.{home_in};
ghost use Rattle.rh_layout.specs.Layout.{IsLayout, keys_of};
ghost use Rattle.rh_edit.specs.Put.{HasFreeFrom};
ghost use Rattle.rh_edit.specs.Pull.{IsPulled};

use rh_layout::{cell_of, home};
use rh_probe::{cell_after, is_movable, next_cell, probe_length};

/// Takes the key out of the table, and answers whether it was there.
pub fn remove(bits: u32, cells: &mut [u64], key: u64) -> bool
    requires layout { IsLayout bits cells.old }
    requires key { IsKey key }
    requires room { set.len (keys_of cells.old) < 2 ^ bits }
    ensures layout { IsLayout bits cells.new }
    ensures keys { keys_of cells.new ≡ set.remove (keys_of cells.old) key }
    ensures changed { result ≡ set.contains (keys_of cells.old) key }
{
    let first = home(bits, key);
    let at = probe_length(bits, cells, key);
    let cell = cell_after(cells.len(), first, at);
    if cells[cell] != cell_of(key) {
        return false;
    }
    pull_back(bits, cells, first, at, cell);
    true
}

/// Moves back by one what stands after `cell`, `at` steps after `first`, up to an empty cell or a
/// key at home.
fn pull_back(bits: u32, cells: &mut [u64], first: usize, at: usize, cell: usize)
    requires bits { IsBits bits }
    requires first { first < length cells.old }
    requires at { at < length cells.old }
    requires cell { cell ≡ cell_ahead (length cells.old) first at }
    requires free { HasFreeFrom cells.old first (at + 1) }
    ensures { (j : ℕ) × IsPulled (length cells.old) (home_in bits) first at j
        (slice_index cells.old) (slice_index cells.new) }
{
    let mut cell = cell;
    for step in at..cells.len() - 1 {
        let next = next_cell(cells.len(), cell);
        let found = cells[next];
        if !is_movable(bits, next, found) {
            cells[cell] = 0;
            return;
        }
        cells[cell] = found;
        cell = next;
    }
    unreachable!()
}
