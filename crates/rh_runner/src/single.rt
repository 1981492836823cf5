//! One worker.

ghost use Rattle.std.specs.Prelude.{◌≡◌, ◌≢◌, ◌+◌, ◌^◌, ◌<◌, [], ◌∷◌, if◌then◌else◌, All};
ghost use Rattle.std.specs.FinSet as set;
ghost use Rattle.rh_layout.specs.Key.{IsKey};
ghost use Rattle.rh_layout.specs.Layout.{IsLayout, keys_of};
ghost use Rattle.rh_ledger.specs.Phase.{count_of, most_added, set_after, set_with, tally_of};
ghost use Rattle.rh_ledger.specs.Tally.{tally_by};
ghost use Rattle.rh_runner.specs.Cells.{AreTheCells};

use crate::lists::BATCH;
use crate::runner::{PhaseFault, Runner};
use rh_edit::{insert, remove};
use rh_ledger::{Kind, Tally, tally_by};
use rh_probe::find;
use std::alloc::Global;
use std::sync::Wait;
use std::thread::Threads;

/// Carries out each phase itself, on the calling thread: it starts no other. Only a look-up takes
/// memory, for its answers.
#[derive(Clone, Copy)]
pub struct Single;

impl Runner for Single {
    ghost refused_starts = { λ _. 0 };

    ghost workers = { λ _. 1 };

    fn phase_keys(&self, _kind: Kind) -> usize {
        BATCH
    }

    fn change<R: Threads + Wait + Sync>(
        &mut self,
        _rt: &R,
        _alloc: Global,
        kind: Kind,
        bits: u32,
        cells: &mut Vec<u64>,
        keys: &[u64],
    ) -> Result<Tally, PhaseFault> {
        Ok(change_cells(kind, bits, cells.as_mut_slice(), keys))
    }

    fn ask<R: Threads + Wait + Sync>(
        &mut self,
        _rt: &R,
        alloc: Global,
        bits: u32,
        cells: &[u64],
        keys: &[u64],
    ) -> Result<Vec<bool>, PhaseFault> {
        let mut found = Vec::with_capacity(alloc, keys.len())?;
        for key in keys {
            let there = find(bits, cells, *key).is_some();
            found.push_reserved(there);
        }
        Ok(found)
    }
}

fn change_cells(kind: Kind, bits: u32, cells: &mut [u64], keys: &[u64]) -> Tally
    requires kind { kind ≢ Kind.Ask }
    requires layout { IsLayout bits cells.old }
    requires keys { All IsKey keys.now }
    requires room { set.len (keys_of cells.old) + most_added kind keys.now < 2 ^ bits }
    ensures layout { IsLayout bits cells.new }
    ensures keys { keys_of cells.new ≡ set_after kind (keys_of cells.old) keys.now }
    ensures cells { AreTheCells bits (set_after kind (keys_of cells.old) keys.now) cells.new }
    ensures tally { result ≡ tally_of kind (keys_of cells.old) keys.now }
{
    let mut changed = 0;
    for key in keys {
        if change_cell(kind, bits, cells, *key) {
            changed += 1;
        }
    }
    tally_by(kind, keys.len() as u64, changed)
}

/// Inserts a key or removes it, and answers whether that changed the set.
fn change_cell(kind: Kind, bits: u32, cells: &mut [u64], key: u64) -> bool
    requires kind { kind ≢ Kind.Ask }
    requires layout { IsLayout bits cells.old }
    requires key { IsKey key }
    requires room { set.len (keys_of cells.old) + most_added kind (key ∷ []) < 2 ^ bits }
    ensures layout { IsLayout bits cells.new }
    ensures keys { keys_of cells.new ≡ set_with kind (keys_of cells.old) key }
    ensures counted { count_of kind (keys_of cells.old) key
        ≡ tally_by kind 1 (if result then 1 else 0) }
{
    match kind {
        Kind::Insert => insert(bits, cells, key),
        Kind::Remove => remove(bits, cells, key),
        Kind::Ask => unreachable!(),
    }
}
