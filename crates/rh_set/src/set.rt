//! A set that grows.

ghost use Rattle.std.specs.Prelude.{◌≡◌, ◌+◌, ◌^◌, ◌<◌, IfErr, IfOk, OnErr, OnOk, length, not};
ghost use Rattle.std.specs.FinSet as set;
ghost use Rattle.rh_layout.specs.Key.{IsKey};
ghost use Rattle.rh_layout.specs.declared.limits.TheConstants.{MIN_BITS};
ghost use Rattle.rh_edit.specs.Rising.{rising_keys};
ghost use Rattle.rh_grow.specs.Growth.{IsCapacity};
ghost use Rattle.rh_set.specs.Inserting.{IsSizeWith, IsTight, IsWhyNot, one_more};
ghost use Rattle.rh_set.specs.Putting.{IsPutInFront, IsWhyNotPut};

use crate::fault::{InsertFault, PutFault};
use crate::putting::put;
use rh_edit::SeqSet;
use rh_grow::{bits_for, grow};
use rh_layout::{MAX_KEY, MIN_BITS};
use std::alloc::{AllocError, Global};
use std::marker::Model;

/// A set of keys in one table, which grows where a key is to be added that it has no room for.
/// Contracts see the bits of the table and the keys.
#[derive(Drop)]
pub struct Set {
    pub(crate) table: SeqSet,
}

impl Model for Set {
    ghost use Rattle.rh_edit.specs.Held.{Held, held_code};
    ghost use Rattle.rh_set.specs.Inserting.{AreKeys};

    ghost Value = { Held };

    ghost coded = { held_code };

    ghost view = { λ s. s.table };

    ghost invariant = { λ s. AreKeys s.table.keys };
}

impl Set {
    /// An empty set, in a table of the least size.
    pub fn new(alloc: Global) -> Result<Set, AllocError>
        ensures bits { IfOk result (λ s. s.bits ≡ MIN_BITS) }
        ensures keys { IfOk result (λ s. s.keys ≡ set.empty) }
    {
        let table = SeqSet::new(alloc, MIN_BITS)?;
        Ok(Set { table })
    }

    /// How many keys there are.
    pub fn len(&self) -> usize
        ensures { result ≡ set.len self.now.keys }
    {
        self.table.len()
    }

    /// Whether the number is there. A number that is no key never is.
    pub fn contains(&self, number: u64) -> bool
        ensures { result ≡ set.contains self.now.keys number }
    {
        number <= MAX_KEY && self.table.has(number)
    }

    /// Adds a key, and answers whether it was not there. Where the table has to grow, the set has
    /// both tables for a while; else no memory is taken.
    pub fn insert(&mut self, alloc: Global, number: u64) -> Result<bool, InsertFault>
        ensures key { OnOk result (IsKey number) }
        ensures keys { OnOk result (self.new.keys ≡ set.insert self.old.keys number) }
        ensures added { IfOk result (λ added. added ≡ not (set.contains self.old.keys number)) }
        ensures bits { OnOk result (IsSizeWith self.old number self.new.bits) }
        ensures why { IfErr result (IsWhyNot self.old number) }
        ensures unchanged { OnErr result (self.new ≡ self.old) }
    {
        if number > MAX_KEY {
            return Err(InsertFault::NotAKey);
        }
        if self.table.has(number) {
            return Ok(false);
        }
        self.make_room(alloc)?;
        Ok(self.table.insert(number))
    }

    /// Grows the table where it has no room for a key more.
    fn make_room(&mut self, alloc: Global) -> Result<(), InsertFault>
        ensures keys { self.new.keys ≡ self.old.keys }
        ensures bits { OnOk result (IsCapacity self.old.bits (one_more self.old) self.new.bits) }
        ensures room { OnOk result (one_more self.new < 2 ^ self.new.bits) }
        ensures why { IfErr result (IsTight self.old) }
        ensures unchanged { OnErr result (self.new ≡ self.old) }
    {
        let bits = self.table.bits();
        let Some(size) = bits_for(bits, self.table.len() as u64, 1) else {
            return Err(InsertFault::Full);
        };
        if size > bits {
            let Ok(cells) = grow(alloc, bits, self.table.cells(), size) else {
                return Err(InsertFault::Memory);
            };
            self.table = SeqSet::from_cells(size, cells);
        }
        Ok(())
    }

    /// Takes a number out, and answers whether it was there. The table stays as large as it is.
    pub fn remove(&mut self, number: u64) -> bool
        ensures bits { self.new.bits ≡ self.old.bits }
        ensures keys { self.new.keys ≡ set.remove self.old.keys number }
        ensures removed { result ≡ set.contains self.old.keys number }
    {
        number <= MAX_KEY && self.table.remove(number)
    }

    /// Puts the keys at the front of the slice, in rising order, and answers how many they are. It
    /// takes 8 bytes of memory for each key for a while.
    pub fn keys_into(&self, alloc: Global, into: &mut [u64]) -> Result<usize, PutFault>
        ensures front { IfOk result (IsPutInFront (rising_keys self.now.keys) into.old into.new) }
        ensures why { IfErr result (IsWhyNotPut (set.len self.now.keys) (length into.old)) }
        ensures unchanged { OnErr result (into.new ≡ into.old) }
    {
        let count = self.table.len();
        if into.len() < count {
            return Err(PutFault::NoRoom { count });
        }
        let Ok(keys) = self.table.sorted_keys(alloc) else {
            return Err(PutFault::Memory);
        };
        put(&keys, into)
    }
}
