//! The scans.

ghost use Rattle.std.specs.Prelude.{◌≡◌, ℕ, ◌+◌, ◌%◌, ◌^◌, ◌<◌, ◌≤◌, ◌↔◌, IsTrue, length, slice_index, MatchOption};
ghost use Rattle.rh_layout.specs.Round.{cell_ahead};
ghost use Rattle.rh_layout.specs.Key.{IsBits, IsKey};
ghost use Rattle.rh_probe.specs.Look.{Finds};
ghost use Rattle.rh_probe.specs.Segment.{IsAway, IsFirstFree, IsFirstStop};

use crate::answer::Look;
use rh_layout::{beats, home, key_in};

/// The cell that so many steps round a table lead to, also more of them than it has cells.
#[tactic(auto, using(crate::proofs::ProbeLemmas::spot))]
fn cell_at(bits: u32, from: usize, steps: usize) -> usize
    requires bits { IsBits bits }
    requires from { from < 2 ^ bits }
    requires steps { steps < 2 ^ 63 }
    ensures value { result ≡ cell_ahead (2 ^ bits) from steps }
    ensures in_table { result < 2 ^ bits }
{
    (from + steps) % (1 << bits)
}

/// What the first offset that decides tells of the key: the one that holds it, or that is empty or
/// holds a key that does not beat it there (Celis 1986). `seen` is what consecutive cells hold,
/// from the key's home on.
pub fn look(bits: u32, key: u64, seen: &[u64]) -> Look
    requires bits { IsBits bits }
    requires key { IsKey key }
    ensures { Finds bits key seen.now result }
{
    let first = home(bits, key);
    for (i, value) in seen.iter().enumerate() {
        let Some(found) = key_in(*value) else {
            return Look::Goes(i);
        };
        if found == key {
            return Look::Here(i);
        }
        if !beats(bits, cell_at(bits, first, i), found, key) {
            return Look::Goes(i);
        }
    }
    Look::More
}

/// The first offset from `i` on that is empty.
pub fn free_after(seen: &[u64], i: usize) -> Option<usize>
    ensures { MatchOption result
        ((p : ℕ) → i ≤ p → p < length seen.now → 0 < slice_index seen.now p)
        (λ j. IsFirstFree seen.now i j) }
{
    (i..seen.len()).find(|j| seen[*j] == 0)
}

/// The first offset after `i` that is empty or holds a key at its home; there is none after the
/// last. What stands between can move back by one. `cell` is the cell of the first offset of
/// `seen`.
pub fn stop_after(bits: u32, cell: usize, seen: &[u64], i: usize) -> Option<usize>
    requires bits { IsBits bits }
    requires cell { cell < 2 ^ bits }
    ensures { MatchOption result
        ((p : ℕ) → i < p → p < length seen.now →
        IsAway bits (cell_ahead (2 ^ bits) cell p) (slice_index seen.now p))
        (λ j. IsFirstStop bits cell seen.now i j) }
{
    for j in i.saturating_add(1)..seen.len() {
        if !is_movable(bits, cell_at(bits, cell, j), seen[j]) {
            return Some(j);
        }
    }
    None
}

/// Whether a cell that holds this has a key that is not at its home, so that it can move back by
/// one.
pub fn is_movable(bits: u32, cell: usize, value: u64) -> bool
    requires { IsBits bits }
    ensures { IsTrue result ↔ IsAway bits cell value }
{
    match key_in(value) {
        Some(key) => home(bits, key) != cell,
        None => false,
    }
}
