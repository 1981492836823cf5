//! Phases by several workers.

ghost use Rattle.rh_shared.specs.Rests.{SeatRests};
ghost use Rattle.rh_layout.specs.Key.{IsKey};
ghost use Rattle.rh_layout.specs.Layout.{HasFree, IsLayout, keys_of};
ghost use Rattle.rh_threads.specs.Made.{IsRooms, IsWorkers};
ghost use Rattle.std.specs.FinSet as set;
ghost use Rattle.std.specs.Prelude.{All, length, ◌+◌, ◌<◌, ◌^◌, ◌≡◌, ◌≢◌};

use crate::layout::has_room;
use rh_descriptor::{Entry, Rooms};
use rh_kcas::{Seat, Table};
use rh_ledger::{Kind, Tally};
use rh_phase::{Gate, PhaseFault, Starts};
use std::alloc::Global;
use std::sync::Wait;
use std::thread::Threads;

pub fn do_key<R: Wait>(
    rt: &R,
    table: &Table,
    seat: &mut Seat,
    bits: u32,
    kind: Kind,
    key: u64,
    seen: &mut [u64],
    news: &mut [u64],
    entries: &mut [Entry],
) -> Option<bool>
    requires rests { SeatRests table.now seat.old }
    requires bits { table.now.shape.bits ≡ bits }
    requires key { IsKey key }
    requires seen { length seen.old ≡ 2 ^ bits }
    requires news { length news.old ≡ 2 ^ bits }
    requires entries { length entries.old ≡ 2 ^ bits }
{
    rh_phase::do_key(rt, table, seat, bits, kind, key, seen, news, entries)
}

pub fn change<R: Threads + Wait + Sync, G: Gate + Sync>(
    rt: &R,
    alloc: Global,
    workers: usize,
    kind: Kind,
    bits: u32,
    cells: &mut Vec<u64>,
    keys: &[u64],
    gate: &G,
) -> Result<Tally, PhaseFault>
    requires workers { IsWorkers workers }
    requires kind { kind ≢ Kind.Ask }
    requires keys { All IsKey keys.now }
    requires layout { IsLayout bits cells.old.items }
    requires room { kind ≡ Kind.Insert →
        set.len (keys_of cells.old.items) + length keys.now < 2 ^ bits }
    requires free { kind ≡ Kind.Remove → HasFree cells.old.items }
{
    has_room(bits, cells);
    rh_phase::change(rt, alloc, workers, kind, bits, cells, keys, gate)
}

pub fn ask<R: Threads + Wait + Sync, G: Gate + Sync>(
    rt: &R,
    alloc: Global,
    workers: usize,
    bits: u32,
    cells: &[u64],
    keys: &[u64],
    gate: &G,
) -> Result<Vec<bool>, PhaseFault>
    requires workers { IsWorkers workers }
    requires keys { All IsKey keys.now }
    requires layout { IsLayout bits cells.now }
    requires free { HasFree cells.now }
{
    has_room(bits, cells);
    rh_phase::ask(rt, alloc, workers, bits, cells, keys, gate)
}

pub fn change_with<R: Threads + Wait + Sync, G: Gate + Sync, S: Starts + Sync>(
    rt: &R,
    alloc: Global,
    workers: usize,
    kind: Kind,
    bits: u32,
    cells: &mut Vec<u64>,
    keys: &[u64],
    gate: &G,
    starts: &S,
    rooms: Rooms,
) -> Result<Tally, PhaseFault>
    requires workers { IsWorkers workers }
    requires kind { kind ≢ Kind.Ask }
    requires keys { All IsKey keys.now }
    requires layout { IsLayout bits cells.old.items }
    requires room { kind ≡ Kind.Insert →
        set.len (keys_of cells.old.items) + length keys.now < 2 ^ bits }
    requires free { kind ≡ Kind.Remove → HasFree cells.old.items }
    requires rooms { IsRooms bits rooms }
{
    has_room(bits, cells);
    rh_phase::change_with(
        rt, alloc, workers, kind, bits, cells, keys, gate, starts, rooms,
    )
}

pub fn ask_with<R: Threads + Wait + Sync, G: Gate + Sync, S: Starts + Sync>(
    rt: &R,
    alloc: Global,
    workers: usize,
    bits: u32,
    cells: &[u64],
    keys: &[u64],
    gate: &G,
    starts: &S,
    rooms: Rooms,
) -> Result<Vec<bool>, PhaseFault>
    requires workers { IsWorkers workers }
    requires keys { All IsKey keys.now }
    requires layout { IsLayout bits cells.now }
    requires free { HasFree cells.now }
    requires rooms { IsRooms bits rooms }
{
    has_room(bits, cells);
    rh_phase::ask_with(rt, alloc, workers, bits, cells, keys, gate, starts, rooms)
}

pub fn variants(fault: PhaseFault) {
    match fault {
        PhaseFault::Memory | PhaseFault::NoThread => {}
    }
}
