//! Room for what a worker has seen of the table, and for the entries that it makes of it.

ghost use Rattle.std.specs.Prelude.{◌≡◌, ◌^◌, ◌<◌, ◌≤◌, ℕ, IfOk, length, slice_index, take};
ghost use Rattle.rh_layout.specs.Key.{IsBits, IsKey};
ghost use Rattle.rh_tagword.specs.Word.{IsValue};
ghost use Rattle.rh_worker.specs.Deciding.{Decides};
ghost use Rattle.rh_worker.specs.ScanBuffer.{HasRoom};

use crate::deciding::{Decision, decide};
use rh_layout::Entry;
use rh_ledger::Kind;
use std::alloc::{AllocError, Global};

/// Room for what the cells from a key's home on hold, and for the entries of the key's act. It does
/// for as many as the table has cells, and grows in use as scans get longer: the memory behind is
/// never touched.
#[derive(Drop)]
pub struct ScanBuffer {
    /// What the cells hold.
    pub seen: Vec<u64>,
    /// The entries of the planned descriptor, in the order of their cells, with plain words for
    /// values.
    pub entries: Vec<Entry>,
}

/// What stands where no entry was planned yet.
const NO_ENTRY: Entry = Entry {
    cell: 0,
    old: 0,
    new: 0,
};

impl ScanBuffer {
    /// Room for a table of 2 to the power of `bits` cells.
    pub(crate) fn new(alloc: Global, bits: u32) -> Result<ScanBuffer, AllocError>
        requires { IsBits bits }
        ensures { IfOk result (HasRoom bits) }
    {
        let cells = 1usize << bits;
        Ok(ScanBuffer {
            seen: Vec::with_capacity(alloc, cells)?,
            entries: Vec::with_capacity(alloc, cells)?,
        })
    }

    /// Keeps what the next cell holds, where so many were seen.
    pub(crate) fn see(&mut self, count: usize, value: u64)
        requires within { count ≤ length self.old.seen.items }
        requires room { (b : ℕ) × HasRoom b self.old × (count < 2 ^ b) }
        requires value { IsValue value }
        ensures room { (b : ℕ) → HasRoom b self.old → count < 2 ^ b → HasRoom b self.new }
        ensures before { (p : ℕ) → p < count →
            slice_index self.new.seen.items p ≡ slice_index self.old.seen.items p }
        ensures seen { slice_index self.new.seen.items count ≡ value }
        ensures within { count < length self.new.seen.items }
    {
        if count < self.seen.len() {
            self.seen[count] = value;
        } else {
            self.seen.push_reserved(value);
            self.entries.push_reserved(NO_ENTRY);
        }
    }

    /// What the first `count` cells from the key's home on lead to.
    pub(crate) fn decide(&mut self, kind: Kind, bits: u32, key: u64, count: usize) -> Decision
        requires bits { IsBits bits }
        requires key { IsKey key }
        requires room { HasRoom bits self.old }
        requires count { count ≤ length self.old.seen.items }
        ensures room { HasRoom bits self.new }
        ensures seen { self.new.seen.items ≡ self.old.seen.items }
        ensures decides { Decides kind bits key (take count self.old.seen.items)
            self.new.entries.items result }
    {
        decide(kind, bits, key, &self.seen[..count], &mut self.entries)
    }
}
