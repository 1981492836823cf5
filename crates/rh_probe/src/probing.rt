//! The search for a key in a whole table.

ghost use Rattle.std.specs.Prelude.{◌≡◌, ◌+◌, ◌%◌, ◌^◌, ◌<◌, length, false, MatchOption};
ghost use Rattle.std.specs.FinSet as set;
ghost use Rattle.std.specs.FinSet.{contains};
ghost use Rattle.rh_layout.specs.Round.{cell_ahead};
ghost use Rattle.rh_layout.specs.Key.{IsBits, IsKey};
ghost use Rattle.rh_layout.specs.Layout.{HasFree, Holds, IsLayout, keys_of};
ghost use Rattle.rh_probe.specs.Look.{IsProbeLength};

use rh_layout::{beats, cell_of, home, key_in};

/// The cell after this one. Cell 0 comes after the last.
/// It is found by a comparison, as a division costs more than the rest of a probe.
#[tactic(auto, using(crate::proofs::ProbeLemmas::next_is))]
pub fn next_cell(size: usize, cell: usize) -> usize
    requires { cell < size }
    ensures { result ≡ (cell + 1) % size }
{
    if cell + 1 < size { cell + 1 } else { 0 }
}

/// The cell that so many steps round the table lead to.
#[tactic(auto, using(crate::proofs::ProbeLemmas::after))]
pub fn cell_after(size: usize, from: usize, steps: usize) -> usize
    requires from { from < size }
    requires steps { steps < size }
    requires small { size < 2 ^ 63 }
    ensures value { result ≡ cell_ahead size from steps }
    ensures in_table { result < size }
{
    let cell = from + steps;
    if cell < size { cell } else { cell - size }
}

/// How many steps from its home the key stands, or else where it goes: the first cell that is empty
/// or holds a key that does not beat it there (Celis 1986).
/// `find` and the edits of a whole table share it. Phases of several workers go by `look`, which
/// takes what was copied.
pub fn probe_length(bits: u32, cells: &[u64], key: u64) -> usize
    requires bits { IsBits bits }
    requires size { length cells.now ≡ 2 ^ bits }
    requires free { HasFree cells.now }
    ensures { IsProbeLength bits cells.now key result }
{
    let mut cell = home(bits, key);
    for i in 0..cells.len() {
        match key_in(cells[cell]) {
            Some(found) if beats(bits, cell, found, key) => cell = next_cell(cells.len(), cell),
            _ => return i,
        }
    }
    unreachable!()
}

/// The cell that holds the key.
pub fn find(bits: u32, cells: &[u64], key: u64) -> Option<usize>
    requires layout { IsLayout bits cells.now }
    requires key { IsKey key }
    requires room { set.len (keys_of cells.now) < 2 ^ bits }
    ensures { MatchOption result (contains (keys_of cells.now) key ≡ false)
        (λ c. Holds cells.now c key) }
{
    let steps = probe_length(bits, cells, key);
    let cell = cell_after(cells.len(), home(bits, key), steps);
    if cells[cell] == cell_of(key) {
        Some(cell)
    } else {
        None
    }
}
