//! The entries of a key's act, from what a scan has seen of the table.

ghost use Rattle.std.specs.Prelude.{◌≡◌, ◌^◌, ◌<◌, ◌≤◌, length};
ghost use Rattle.rh_layout.specs.Key.{IsBits};
ghost use Rattle.rh_acts.specs.CellOrder.{entry_of, offset_at, IsInCellOrder};
ghost use Rattle.rh_acts.specs.Change.{IsWithin, changed};
ghost use Rattle.rh_acts.specs.Decision.{CanAct, Inserts, Removes};

use crate::answer::{Insertion, Removal};
use crate::change::Change;
use rh_layout::{Entry, cell_of, home};
use rh_probe::{Look, cell_after, free_after, look, stop_after};

/// Writes the entries that put the key in, in the order of their cells. `seen` is what consecutive
/// cells hold from the key's home on, as a scan read them. The table may not look so at any moment:
/// only an act that meets its old values shows that it did.
pub fn insert_entries(bits: u32, key: u64, seen: &[u64], entries: &mut [Entry]) -> Insertion
    requires { CanAct bits key seen.now entries.old }
    ensures { Inserts bits key seen.now entries.new result }
{
    let at = match look(bits, key, seen) {
        Look::Here(_) => return Insertion::Held,
        Look::More => return Insertion::More,
        Look::Goes(at) => at,
    };
    let Some(last) = free_after(seen, at) else {
        return Insertion::More;
    };
    let count = last + 1;
    let value = cell_of(key);
    write_entries(
        bits,
        home(bits, key),
        Change::PutsIn { value, at },
        &seen[..count],
        &mut entries[..count],
    );
    Insertion::PutsIn(count)
}

/// Writes the entries that take the key out, or that show that it is not there, in the order of
/// their cells. `seen` is as for `insert_entries`.
pub fn remove_entries(bits: u32, key: u64, seen: &[u64], entries: &mut [Entry]) -> Removal
    requires { CanAct bits key seen.now entries.old }
    ensures { Removes bits key seen.now entries.new result }
{
    let first = home(bits, key);
    let at = match look(bits, key, seen) {
        Look::More => return Removal::More,
        Look::Goes(at) => {
            let olds = &seen[..at + 1];
            write_entries(bits, first, Change::Stays, olds, &mut entries[..at + 1]);
            return Removal::ShowsAbsent(at + 1);
        }
        Look::Here(at) => at,
    };
    let Some(last) = stop_after(bits, first, seen, at) else {
        return Removal::More;
    };
    let count = last + 1;
    let change = Change::TakesOut { at };
    write_entries(bits, first, change, &seen[..count], &mut entries[..count]);
    Removal::TakesOut(count)
}

/// Writes the entries of a front that begins at cell `first`, in the order of their cells.
#[inline(always)]
fn write_entries(bits: u32, first: usize, change: Change, olds: &[u64], entries: &mut [Entry])
    requires bits { IsBits bits }
    requires first { first < 2 ^ bits }
    requires change { IsWithin change olds.now }
    requires room { length olds.now ≤ 2 ^ bits }
    requires entries { length entries.old ≡ length olds.now }
    ensures { IsInCellOrder (2 ^ bits) first entries.new olds.now (changed change olds.now) }
{
    for turn in 0..olds.len() {
        entries[turn] = entry_at(bits, first, change, olds, turn);
    }
}

/// The entry of the `turn`-th cell of a front that begins at cell `first`. Where the front goes
/// round the end of the table, its last cells come first.
#[tactic(auto, using(std::proofs::lemmas::Nat::one_shl))]
#[inline(always)]
fn entry_at(bits: u32, first: usize, change: Change, olds: &[u64], turn: usize) -> Entry
    requires bits { IsBits bits }
    requires first { first < 2 ^ bits }
    requires change { IsWithin change olds.now }
    requires room { length olds.now ≤ 2 ^ bits }
    requires turn { turn < length olds.now }
    ensures { result ≡ entry_of (2 ^ bits) first olds.now (changed change olds.now)
        (offset_at (2 ^ bits) first (length olds.now) turn) }
{
    let size = 1usize << bits;
    let past = (first + olds.len()).saturating_sub(size);
    let offset = if turn < past {
        size - first + turn
    } else {
        turn - past
    };
    Entry {
        cell: cell_after(size, first, offset),
        old: olds[offset],
        new: change.value_at(olds, offset),
    }
}
