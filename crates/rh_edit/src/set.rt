//! The set of one worker.

ghost use Rattle.std.specs.Prelude.{◌≡◌, ◌+◌, ◌^◌, ◌<◌, All, IfOk, length, not};
ghost use Rattle.std.specs.List.Sorted.{IsPermutation, IsSorted, IsStrictlyIncreasing};
ghost use Rattle.std.specs.Ordering.{nat_cmp};
ghost use Rattle.std.specs.FinSet as set;
ghost use Rattle.rh_layout.specs.Key.{IsBits, IsKey};
ghost use Rattle.rh_layout.specs.Layout.{IsLayout, Layout, keys_of};
ghost use Rattle.rh_layout.specs.declared.limits.TheConstants.{MAX_BITS};
ghost use Rattle.rh_edit.specs.Rising.{rising_keys};

use crate::{insertion, removal};
use rh_layout::key_in;
use rh_probe::find;
use std::alloc::{AllocError, Global};
use std::marker::Model;

/// A set of keys, whose cells are always a layout with a free cell. Contracts see its bits and its
/// keys.
#[derive(Drop)]
pub struct SeqSet {
    bits: u32,
    len: usize,
    table: Vec<u64>,
}

impl Model for SeqSet {
    ghost use Rattle.std.specs.Prelude.{◌≡◌, ◌^◌, ◌<◌};
    ghost use Rattle.std.specs.FinSet as set;
    ghost use Rattle.rh_layout.specs.Layout.{IsLayout, keys_of};
    ghost use Rattle.rh_edit.specs.Held.{Held, held_code};

    ghost Value = { Held };

    ghost coded = { held_code };

    ghost view = { λ s. record { bits = s.bits; keys = keys_of s.table.items } };

    ghost invariant = { λ s. IsLayout s.bits s.table.items
        × (s.len ≡ set.len (keys_of s.table.items)) × (s.len < 2 ^ s.bits) };
}

impl SeqSet {
    /// An empty set in a table of this size.
    pub fn new(alloc: Global, bits: u32) -> Result<SeqSet, AllocError>
        requires { IsBits bits }
        ensures bits { IfOk result (λ s. s.bits ≡ bits) }
        ensures keys { IfOk result (λ s. s.keys ≡ set.empty) }
    {
        let size = 1usize << bits;
        let table = vec![in alloc; 0; size]?;
        Ok(SeqSet {
            bits,
            len: 0,
            table,
        })
    }

    /// The set of the keys of a list, in a table of this size.
    #[tactic(auto)]
    pub fn from_keys(alloc: Global, bits: u32, keys: &[u64]) -> Result<SeqSet, AllocError>
        requires bits { IsBits bits }
        requires keys { All IsKey keys.now }
        requires room { length keys.now < 2 ^ bits }
        ensures bits { IfOk result (λ s. s.bits ≡ bits) }
        ensures keys { IfOk result (λ s. s.keys ≡ set.from_list keys.now) }
    {
        let mut set = SeqSet::new(alloc, bits)?;
        for key in keys {
            set.insert(*key);
        }
        Ok(set)
    }

    /// The set whose table has these cells.
    pub fn from_cells(bits: u32, cells: Vec<u64>) -> SeqSet
        requires layout { IsLayout bits cells.items }
        requires free { set.len (keys_of cells.items) < 2 ^ bits }
        ensures bits { result.bits ≡ bits }
        ensures keys { result.keys ≡ keys_of cells.items }
    {
        let full = cells.iter().filter(|value| key_in(**value).is_some());
        SeqSet {
            bits,
            len: full.count(),
            table: cells,
        }
    }

    /// How many keys there are.
    pub fn len(&self) -> usize
        ensures { result ≡ set.len self.now.keys }
    {
        self.len
    }

    /// The size of the table, as a power of 2.
    pub fn bits(&self) -> u32
        ensures bits { result ≡ self.now.bits }
        ensures in_limits { IsBits result }
    {
        self.bits
    }

    /// The cells of the table.
    pub fn cells(&self) -> &[u64]
        ensures layout { Layout result.now self.now.bits self.now.keys }
        ensures keys { keys_of result.now ≡ self.now.keys }
        ensures free { set.len self.now.keys < 2 ^ self.now.bits }
    {
        self.table.as_slice()
    }

    /// The cells of the table, for keeps.
    pub fn into_cells(self) -> Vec<u64>
        ensures layout { Layout result.items self.bits self.keys }
        ensures keys { keys_of result.items ≡ self.keys }
        ensures free { set.len self.keys < 2 ^ self.bits }
    {
        self.table
    }

    /// Adds a key, and answers whether it was not there.
    #[tactic(auto, using(crate::proofs::SetLemmas::set_members))]
    pub fn insert(&mut self, key: u64) -> bool
        requires key { IsKey key }
        requires room { set.len self.old.keys + 1 < 2 ^ self.old.bits }
        ensures bits { self.new.bits ≡ self.old.bits }
        ensures keys { self.new.keys ≡ set.insert self.old.keys key }
        ensures changed { result ≡ not (set.contains self.old.keys key) }
    {
        let added = insertion::insert(self.bits, self.table.as_mut_slice(), key);
        if added {
            self.len += 1;
        }
        added
    }

    /// Takes a key out, and answers whether it was there.
    #[tactic(auto, using(crate::proofs::SetLemmas::removed_members))]
    pub fn remove(&mut self, key: u64) -> bool
        requires { IsKey key }
        ensures bits { self.new.bits ≡ self.old.bits }
        ensures keys { self.new.keys ≡ set.remove self.old.keys key }
        ensures changed { result ≡ set.contains self.old.keys key }
    {
        let removed = removal::remove(self.bits, self.table.as_mut_slice(), key);
        if removed {
            self.len -= 1;
        }
        removed
    }

    /// Whether the key is there.
    pub fn has(&self, key: u64) -> bool
        requires { IsKey key }
        ensures { result ≡ set.contains self.now.keys key }
    {
        find(self.bits, self.table.as_slice(), key).is_some()
    }

    /// The keys in rising order, in a vector of their own. `AllocError` comes only where a growth
    /// was refused.
    pub fn sorted_keys(&self, alloc: Global) -> Result<Vec<u64>, AllocError>
        ensures items { IfOk result (λ v. v.items ≡ rising_keys self.now.keys) }
        ensures rising { IfOk result (λ v. IsStrictlyIncreasing v.items) }
        ensures held { IfOk result (λ v. set.from_list v.items ≡ self.now.keys) }
        ensures many { IfOk result (λ v. length v.items ≡ set.len self.now.keys) }
        ensures keys { IfOk result (λ v. All IsKey v.items) }
        ensures few { IfOk result (λ v. length v.items < 2 ^ MAX_BITS) }
    {
        let mut keys = Vec::with_capacity(alloc, self.len)?;
        for value in &self.table {
            if let Some(key) = key_in(*value) {
                keys.push(key)?;
            }
        }
        Ok(sort_keys(keys))
    }
}

fn sort_keys(mut keys: Vec<u64>) -> Vec<u64>
    ensures moved { IsPermutation keys.items result.items }
    ensures sorted { IsSorted nat_cmp result.items }
{
    keys.sort_unstable();
    keys
}
