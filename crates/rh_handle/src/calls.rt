//! What C may do with the set of a handle. A handle with no set stands for an empty one.

ghost use Rattle.std.specs.Prelude.{◌≡◌, None, IfErr, IfOk, OnErr, OnOk, length, not};
ghost use Rattle.std.specs.FinSet as set;
ghost use Rattle.rh_layout.specs.Key.{IsKey};
ghost use Rattle.rh_edit.specs.Rising.{rising_keys};
ghost use Rattle.rh_snapshot.specs.declared.version.Version.{Version};
ghost use Rattle.rh_snapshot.specs.Reading.{SnapFails, file_table};
ghost use Rattle.rh_set.specs.Inserting.{IsSizeWith};
ghost use Rattle.rh_set.specs.Putting.{IsPutInFront, IsWhyNotPut};
ghost use Rattle.rh_set.specs.Snapshot.{IsSnapshotOf, IsSnapshotPut, IsWhyNoSnapshot};
ghost use Rattle.rh_handle.specs.Calls.{IsWhyNotAdded, held_in};

use crate::handle::Handle;
use crate::moving::{open, put, take};
use rh_layout::MAX_KEY;
use rh_set::{InsertFault, PutFault, Set};
use rh_snapshot::SnapFault;
use std::alloc::Global;

impl Handle {
    /// Adds a key, and answers whether it was not there.
    pub fn insert(&mut self, alloc: Global, number: u64) -> Result<bool, InsertFault>
        ensures key { OnOk result (IsKey number) }
        ensures keys { OnOk result
            ((held_in self.new).keys ≡ set.insert (held_in self.old).keys number) }
        ensures added { IfOk result
            (λ added. added ≡ not (set.contains (held_in self.old).keys number)) }
        ensures bits { OnOk result (IsSizeWith (held_in self.old) number (held_in self.new).bits) }
        ensures why { IfErr result (IsWhyNotAdded (held_in self.old) number) }
        ensures unchanged { OnErr result (held_in self.new ≡ held_in self.old) }
    {
        if number > MAX_KEY {
            return Err(InsertFault::NotAKey);
        }
        let Ok(mut set) = open(alloc, self) else {
            return Err(InsertFault::Memory);
        };
        let outcome = set.insert(alloc, number);
        put(alloc, self, set);
        outcome
    }

    /// Takes a number out, and answers whether it was there.
    pub fn remove(&mut self, alloc: Global, number: u64) -> bool
        ensures bits { (held_in self.new).bits ≡ (held_in self.old).bits }
        ensures keys { (held_in self.new).keys ≡ set.remove (held_in self.old).keys number }
        ensures removed { result ≡ set.contains (held_in self.old).keys number }
    {
        let Some(mut set) = take(alloc, self) else {
            return false;
        };
        let removed = set.remove(number);
        put(alloc, self, set);
        removed
    }

    /// Whether the number is there.
    pub fn contains(&mut self, alloc: Global, number: u64) -> bool
        ensures there { result ≡ set.contains (held_in self.old).keys number }
        ensures unchanged { held_in self.new ≡ held_in self.old }
    {
        let Some(set) = take(alloc, self) else {
            return false;
        };
        let there = set.contains(number);
        put(alloc, self, set);
        there
    }

    /// How many keys there are.
    pub fn len(&mut self, alloc: Global) -> usize
        ensures count { result ≡ set.len (held_in self.old).keys }
        ensures unchanged { held_in self.new ≡ held_in self.old }
    {
        let Some(set) = take(alloc, self) else {
            return 0;
        };
        let count = set.len();
        put(alloc, self, set);
        count
    }

    /// Puts the keys at the front of the slice, in rising order, and answers how many they are.
    pub fn keys_into(&mut self, alloc: Global, into: &mut [u64]) -> Result<usize, PutFault>
        ensures front { IfOk result
            (IsPutInFront (rising_keys (held_in self.old).keys) into.old into.new) }
        ensures why { IfErr result
            (IsWhyNotPut (set.len (held_in self.old).keys) (length into.old)) }
        ensures unput { OnErr result (into.new ≡ into.old) }
        ensures unchanged { held_in self.new ≡ held_in self.old }
    {
        let Ok(set) = open(alloc, self) else {
            return Err(PutFault::Memory);
        };
        let outcome = set.keys_into(alloc, into);
        put(alloc, self, set);
        outcome
    }

    /// Puts a snapshot of the set at the front of the slice, and answers how many bytes it has.
    pub fn snapshot_into(&mut self, alloc: Global, into: &mut [u8]) -> Result<usize, PutFault>
        ensures front { IfOk result (IsSnapshotPut (held_in self.old) into.old into.new) }
        ensures why { IfErr result (IsWhyNoSnapshot (held_in self.old) (length into.old)) }
        ensures unput { OnErr result (into.new ≡ into.old) }
        ensures unchanged { held_in self.new ≡ held_in self.old }
    {
        let Ok(set) = open(alloc, self) else {
            return Err(PutFault::Memory);
        };
        let outcome = set.snapshot_into(alloc, into);
        put(alloc, self, set);
        outcome
    }

    /// Puts the set of a snapshot, of either version, in the place of the handle's.
    pub fn restore(&mut self, alloc: Global, bytes: &[u8]) -> Result<(), SnapFault>
        ensures restored { OnOk result ((version : Version)
            × IsSnapshotOf version bytes.now (held_in self.new)) }
        ensures fault { IfErr result (λ fault. SnapFails fault (file_table bytes.now)) }
        ensures unchanged { OnErr result (self.new ≡ self.old) }
    {
        let set = Set::from_snapshot(alloc, bytes)?;
        let Ok(boxed) = Box::new(alloc, set) else {
            return Err(SnapFault::Memory);
        };
        put(alloc, self, boxed);
        Ok(())
    }

    /// Frees the set. The handle stands for an empty one then.
    pub fn clear(&mut self, alloc: Global)
        ensures { self.new.held ≡ None }
    {
        drop(take(alloc, self));
    }
}
