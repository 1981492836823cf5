//! Insertion in place.

ghost use Rattle.std.specs.Prelude.{◌≡◌, ℕ, ◌+◌, ◌%◌, ◌^◌, ◌<◌, ◌≤◌, length, slice_index, not};
ghost use Rattle.std.specs.FinSet as set;
ghost use Rattle.rh_layout.specs.Round.{steps_round, cell_ahead};
ghost use Rattle.rh_layout.specs.Key.{IsKey};
ghost use Rattle.rh_layout.specs.Layout.{IsLayout, keys_of};
ghost use Rattle.rh_edit.specs.Put.{HasFreeFrom, IsPushed};

use rh_layout::{cell_of, home};
use rh_probe::{cell_after, next_cell, probe_length};

/// Adds the key to the table, and answers whether it was not there.
pub fn insert(bits: u32, cells: &mut [u64], key: u64) -> bool
    requires layout { IsLayout bits cells.old }
    requires key { IsKey key }
    requires room { set.len (keys_of cells.old) + 1 < 2 ^ bits }
    ensures layout { IsLayout bits cells.new }
    ensures keys { keys_of cells.new ≡ set.insert (keys_of cells.old) key }
    ensures changed { result ≡ not (set.contains (keys_of cells.old) key) }
{
    let first = home(bits, key);
    let at = probe_length(bits, cells, key);
    let value = cell_of(key);
    let cell = cell_after(cells.len(), first, at);
    if cells[cell] == value {
        return false;
    }
    push_on(cells, first, at, cell, value);
    true
}

/// Puts the value into `cell`, `at` steps after `first`, and moves what stands from there up to the
/// first empty cell on by one.
fn push_on(cells: &mut [u64], first: usize, at: usize, cell: usize, value: u64)
    requires first { first < length cells.old }
    requires at { at < length cells.old }
    requires cell { cell ≡ cell_ahead (length cells.old) first at }
    requires free { HasFreeFrom cells.old first at }
    ensures { (j : ℕ) × IsPushed (length cells.old) first at j value
        (slice_index cells.old) (slice_index cells.new) }
{
    let mut cell = cell;
    let mut carry = value;
    for step in at..cells.len() {
        let found = cells[cell];
        cells[cell] = carry;
        if found == 0 {
            return;
        }
        carry = found;
        cell = next_cell(cells.len(), cell);
    }
    unreachable!()
}
