//! Phases over whole lists of keys, batch by batch.

ghost use Rattle.std.specs.Prelude.{◌≡◌, ◌≢◌, ◌+◌, ◌^◌, ◌<◌, ℕ, List, Some, IfOk, IfErr, OnOk, length};
ghost use Rattle.std.specs.FinSet as set;
ghost use Rattle.rh_layout.specs.Layout.{IsLayout, keys_of};
ghost use Rattle.rh_key_files.specs.Source.{FaultComes};
ghost use Rattle.rh_ledger.specs.Phase.{looked_up};
ghost use Rattle.rh_runner.specs.Lists.{EndsList, Took, Ran, may_add};

use crate::fault::ListFault;
use crate::host::Host;
use crate::runner::{PhaseFault, Runner};
use crate::scratch::Scratch;
use rh_grow::{LOAD_DENOMINATOR, LOAD_NUMERATOR};
use rh_key_files::{KeyFault, KeySource, MAX_KEYS};
use rh_layout::MAX_BITS;
use rh_ledger::{Kind, NONE_YET, Tally, joined};
use std::alloc::{AllocError, Global};
use std::sync::Wait;
use std::thread::Threads;

/// How many keys are taken at a time of a list that is only read through, or of which one worker
/// that has the table alone does a few after the others.
pub const BATCH: usize = 4_096;

/// How many keys a phase of several workers takes at most that changes a table: as many as may be
/// added to one. It makes a table of its own, so a list is cut only where that is needed to bound
/// the memory.
pub const PHASE: usize = (1 << MAX_BITS) / LOAD_DENOMINATOR as usize * LOAD_NUMERATOR as usize;

/// How many keys a phase of look-ups by several workers takes at most: as many as a list has.
pub const LOOK_UPS: usize = MAX_KEYS as usize;

/// Room for the keys of a phase, which takes at most so many, over a list of which `left` are to
/// come.
pub(crate) fn phase_room(alloc: Global, left: u64, most: usize) -> Result<Vec<u64>, AllocError>
    ensures some { IfOk result (λ room. 0 < length room.items) }
{
    let long = left.min(most as u64).max(1) as usize;
    vec![in alloc; 0; long]
}

/// Reads a list to its end and keeps nothing, for the faults that come on the way.
pub fn read_through<K: KeySource>(keys: &mut K) -> Result<(), KeyFault>
    ensures took { OnOk result ((list : List ℕ)
        × Took (K.coming keys.old) (K.left_of keys.old) list) }
    ensures refused { IfErr result (FaultComes (K.coming keys.old)) }
    ensures told { IfErr result (λ e. K.failed_with keys.new ≡ Some e) }
{
    let mut batch = [0; BATCH];
    while keys.next_keys(&mut batch)? > 0 {}
    Ok(())
}

/// Puts all keys of a list into a buffer that has just room for them.
pub fn take_all<K: KeySource>(keys: &mut K, list: &mut [u64]) -> Result<(), KeyFault>
    requires { length list.old ≡ K.left_of keys.old }
    ensures took { OnOk result (Took (K.coming keys.old) (K.left_of keys.old) list.new) }
    ensures long { length list.new ≡ length list.old }
    ensures refused { IfErr result (FaultComes (K.coming keys.old)) }
    ensures told { IfErr result (λ e. K.failed_with keys.new ≡ Some e) }
    ensures fine { OnOk result (K.failed_with keys.new ≡ K.failed_with keys.old) }
{
    let mut taken = 0;
    while taken < list.len() {
        taken += keys.next_keys(&mut list[taken..])?;
    }
    // Behind them the list ends.
    keys.next_keys(&mut [0])?;
    Ok(())
}

/// Inserts or removes all keys of a list. On a fault the table may hold some of the changes.
pub fn change_all<T: Threads + Wait + Sync, N: Runner, K: KeySource>(
    host: &Host<'_, T>,
    runner: &mut N,
    kind: Kind,
    scratch: &mut Scratch,
    keys: &mut K,
) -> Result<Tally, ListFault>
    requires kind { kind ≢ Kind.Ask }
    requires layout { IsLayout scratch.old.bits scratch.old.cells.items }
    requires room { set.len (keys_of scratch.old.cells.items)
        + may_add kind (K.left_of keys.old) < 2 ^ scratch.old.bits }
    ensures bits { scratch.new.bits ≡ scratch.old.bits }
    ensures done { IfOk result (λ t. (list : List ℕ)
        × Took (K.coming keys.old) (K.left_of keys.old) list
        × Ran kind scratch.old.bits list scratch.old.cells.items scratch.new.cells.items t) }
    ensures ends { EndsList (K.coming keys.old) (K.failed_with keys.old) (K.failed_with keys.new)
        (N.refused_starts runner.old) (N.refused_starts runner.new) result }
{
    // No count of the tally is greater.
    let most = keys.keys_left();
    let mut room = phase_room(host.alloc, most, runner.phase_keys(kind))?;
    let batch = room.as_mut_slice();
    let Scratch { bits, cells } = scratch;
    let mut tally = NONE_YET;
    loop {
        let n = keys.next_keys(batch)?;
        if n == 0 {
            return Ok(tally);
        }
        let more = runner.change(host.rt, host.alloc, kind, *bits, cells, &batch[..n])?;
        tally = joined(tally, more).unwrap();
    }
}

/// Looks all keys of a list up, and answers in list order which are there.
pub fn ask_all<T: Threads + Wait + Sync, N: Runner, K: KeySource>(
    host: &Host<'_, T>,
    runner: &mut N,
    bits: u32,
    cells: &[u64],
    keys: &mut K,
) -> Result<Vec<bool>, ListFault>
    requires layout { IsLayout bits cells.now }
    requires room { set.len (keys_of cells.now) < 2 ^ bits }
    ensures found { IfOk result (λ found. (list : List ℕ)
        × Took (K.coming keys.old) (K.left_of keys.old) list
        × (found.items ≡ looked_up (keys_of cells.now) list)) }
    ensures ends { EndsList (K.coming keys.old) (K.failed_with keys.old) (K.failed_with keys.new)
        (N.refused_starts runner.old) (N.refused_starts runner.new) result }
{
    let many = keys.keys_left();
    let mut found = Vec::with_capacity(host.alloc, many as usize)?;
    let mut room = phase_room(host.alloc, many, runner.phase_keys(Kind::Ask))?;
    let batch = room.as_mut_slice();
    loop {
        let n = keys.next_keys(batch)?;
        if n == 0 {
            return Ok(found);
        }
        let answers = runner.ask(host.rt, host.alloc, bits, cells, &batch[..n])?;
        found.extend_from_slice(&answers)?;
    }
}
