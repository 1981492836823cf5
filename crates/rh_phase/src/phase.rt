//! Phases over a list of keys that several workers share.

ghost use Rattle.std.specs.Prelude.{◌≡◌, ◌≢◌, ◌+◌, ◌^◌, ◌<◌, All, IfOk, IsErrOf, OnErr, OnOk};
ghost use Rattle.std.specs.FinSet as set;
ghost use Rattle.rh_layout.specs.Key.{IsKey};
ghost use Rattle.rh_layout.specs.Layout.{IsLayout, keys_of};
ghost use Rattle.rh_ledger.specs.Phase.{looked_up, most_added, set_after, tally_of};
ghost use Rattle.rh_threads.specs.Crew.{AllMayStart};
ghost use Rattle.rh_threads.specs.Made.{IsRooms, IsWorkers};
ghost use Rattle.rh_runner.specs.Cells.{AreTheCells};

use rh_ledger::{Kind, Tally};
use rh_runner::PhaseFault;
use rh_threads::{AllStart, Gate, Phase, Starts};
use rh_words::Rooms;
use std::alloc::Global;
use std::sync::Wait;
use std::thread::Threads;

/// Inserts or removes the keys, by so many workers that change one table at once. The cells and the
/// tally are those that one worker makes. On a fault the cells are as they were. All memory is
/// taken before the first worker starts.
pub fn change<R: Threads + Wait + Sync, G: Gate + Sync>(
    rt: &R,
    alloc: Global,
    workers: usize,
    kind: Kind,
    bits: u32,
    cells: &mut Vec<u64>,
    keys: &[u64],
    gate: &G,
) -> Result<Tally, PhaseFault>
    requires workers { IsWorkers workers }
    requires kind { kind ≢ Kind.Ask }
    requires keys { All IsKey keys.now }
    requires layout { IsLayout bits cells.old.items }
    requires room { set.len (keys_of cells.old.items) + most_added kind keys.now < 2 ^ bits }
    ensures layout { OnOk result (IsLayout bits cells.new.items) }
    ensures keys { OnOk result
        (keys_of cells.new.items ≡ set_after kind (keys_of cells.old.items) keys.now) }
    ensures cells { OnOk result (AreTheCells bits
        (set_after kind (keys_of cells.old.items) keys.now) cells.new.items) }
    ensures tally { IfOk result (λ t. t ≡ tally_of kind (keys_of cells.old.items) keys.now) }
    ensures unchanged { OnErr result (cells.new.items ≡ cells.old.items) }
    ensures no_thread { IsErrOf result PhaseFault.NoThread → 1 < workers }
{
    let rooms = Rooms::usual();
    change_with(
        rt, alloc, workers, kind, bits, cells, keys, gate, &AllStart, rooms,
    )
}

/// Looks the keys up, by so many workers at one table, and answers in list order which are there.
pub fn ask<R: Threads + Wait + Sync, G: Gate + Sync>(
    rt: &R,
    alloc: Global,
    workers: usize,
    bits: u32,
    cells: &[u64],
    keys: &[u64],
    gate: &G,
) -> Result<Vec<bool>, PhaseFault>
    requires workers { IsWorkers workers }
    requires keys { All IsKey keys.now }
    requires layout { IsLayout bits cells.now }
    requires room { set.len (keys_of cells.now) < 2 ^ bits }
    ensures found { IfOk result (λ found. found.items ≡ looked_up (keys_of cells.now) keys.now) }
    ensures no_thread { IsErrOf result PhaseFault.NoThread → 1 < workers }
{
    let rooms = Rooms::usual();
    ask_with(
        rt, alloc, workers, bits, cells, keys, gate, &AllStart, rooms,
    )
}

/// `change`, where some threads may not be started, and each worker has this room in a round: a
/// round more takes place where it does not do.
pub fn change_with<R: Threads + Wait + Sync, G: Gate + Sync, S: Starts + Sync>(
    rt: &R,
    alloc: Global,
    workers: usize,
    kind: Kind,
    bits: u32,
    cells: &mut Vec<u64>,
    keys: &[u64],
    gate: &G,
    starts: &S,
    rooms: Rooms,
) -> Result<Tally, PhaseFault>
    requires workers { IsWorkers workers }
    requires kind { kind ≢ Kind.Ask }
    requires keys { All IsKey keys.now }
    requires layout { IsLayout bits cells.old.items }
    requires room { set.len (keys_of cells.old.items) + most_added kind keys.now < 2 ^ bits }
    requires rooms { IsRooms bits rooms }
    ensures layout { OnOk result (IsLayout bits cells.new.items) }
    ensures keys { OnOk result
        (keys_of cells.new.items ≡ set_after kind (keys_of cells.old.items) keys.now) }
    ensures cells { OnOk result (AreTheCells bits
        (set_after kind (keys_of cells.old.items) keys.now) cells.new.items) }
    ensures tally { IfOk result (λ t. t ≡ tally_of kind (keys_of cells.old.items) keys.now) }
    ensures unchanged { OnErr result (cells.new.items ≡ cells.old.items) }
    ensures allowed { OnOk result (AllMayStart (S.allows starts.now) 0 workers) }
    ensures no_thread { IsErrOf result PhaseFault.NoThread → 1 < workers }
{
    let phase = Phase::new(bits, workers, rooms, kind, keys);
    Ok(phase.change(rt, alloc, cells, gate, starts)?)
}

/// `ask`, where some threads may not be started, and each worker has this room in a round.
pub fn ask_with<R: Threads + Wait + Sync, G: Gate + Sync, S: Starts + Sync>(
    rt: &R,
    alloc: Global,
    workers: usize,
    bits: u32,
    cells: &[u64],
    keys: &[u64],
    gate: &G,
    starts: &S,
    rooms: Rooms,
) -> Result<Vec<bool>, PhaseFault>
    requires workers { IsWorkers workers }
    requires keys { All IsKey keys.now }
    requires layout { IsLayout bits cells.now }
    requires room { set.len (keys_of cells.now) < 2 ^ bits }
    requires rooms { IsRooms bits rooms }
    ensures found { IfOk result (λ found. found.items ≡ looked_up (keys_of cells.now) keys.now) }
    ensures allowed { OnOk result (AllMayStart (S.allows starts.now) 0 workers) }
    ensures no_thread { IsErrOf result PhaseFault.NoThread → 1 < workers }
{
    let phase = Phase::new(bits, workers, rooms, Kind::Ask, keys);
    Ok(phase.ask(rt, alloc, cells, gate, starts)?)
}
