//! Random phases on small tables, by several workers and by one.

ghost use Rattle.std.specs.Prelude.{◌≡◌, ◌≢◌, ◌^◌, ◌<◌, IfSome};
ghost use Rattle.rh_layout.specs.Key.{IsBits};
ghost use Rattle.rh_threads.specs.Made.{IsRooms, IsWorkers};

use crate::random::Random;
use rh_edit::SeqSet;
use rh_layout::is_layout;
use rh_ledger::Kind;
use rh_phase::{AllStart, OpenGate, ask_with, change_with};
use rh_runner::{Runner, Single};
use rh_words::Rooms;
use std::alloc::Global;
use std::sync::Wait;
use std::thread::Threads;

/// A table's bits and cells; how many workers have it, and the rooms of each in a round.
#[derive(Clone, Copy)]
struct Sizes {
    bits: u32,
    cells: usize,
    workers: usize,
    rooms: Rooms,
    ghost bits_fit: { IsBits bits },
    ghost all_cells: { cells ≡ 2 ^ bits },
    ghost workers_fit: { IsWorkers workers },
    ghost rooms_fit: { IsRooms bits rooms },
}

/// The keys lie below this one, so that many of them meet.
const KEYS: u64 = 40;

const NO_MEMORY: &str = "out of memory";

const NO_ROOM: &str = "the lists are too long, or the keys too great";

const DIFFERS: &str = "several workers made something else than one";

/// Makes so many random phases, each by several workers and by one, and compares what comes of
/// them.
pub fn compare<R: Threads + Wait + Sync + AllocGlobal>(
    rt: &R,
    phases: u32,
    seed: u64,
) -> Result<(), &'static str> {
    let mut random = Random::new(seed);
    for _ in 0..phases {
        match random.below(3) {
            0 => one_phase(rt, rt.alloc(), &mut random, 3, 8)?,
            1 => one_phase(rt, rt.alloc(), &mut random, 4, 16)?,
            _ => one_phase(rt, rt.alloc(), &mut random, 5, 32)?,
        }
    }
    Ok(())
}

/// The usual rooms, or 1 to 3 descriptors and the fewest marks: then rows are used again and again,
/// and rounds end for want of room.
fn rooms(random: &mut Random, bits: u32, cells: usize) -> Rooms
    requires bits { IsBits bits }
    requires cells { cells ≡ 2 ^ bits }
    ensures { IsRooms bits result }
{
    match random.below(4) {
        0 => Rooms::usual(),
        descriptors => Rooms {
            descriptors,
            marks: cells as u64,
        },
    }
}

/// A random phase on a table of so many bits, which has so many cells.
fn one_phase<R: Threads + Wait + Sync>(
    rt: &R,
    alloc: Global,
    random: &mut Random,
    bits: u32,
    cells: usize,
) -> Result<(), &'static str>
    requires bits { IsBits bits }
    requires cells { cells ≡ 2 ^ bits }
    requires some { 1 < cells }
{
    let sizes = Sizes {
        bits,
        cells,
        workers: 2 + random.below(15) as usize,
        rooms: rooms(random, bits, cells),
    };
    // (so the two lists have room together)
    let half = cells as u64 / 2;
    let (few, many) = (random.below(half), random.below(half));
    let (Ok(held), Ok(keys)) = (
        random.keys(alloc, few, KEYS),
        random.keys(alloc, many, KEYS),
    ) else {
        return Err(NO_MEMORY);
    };
    match random.below(5) {
        0 | 1 => change(rt, alloc, sizes, Kind::Insert, &held, &keys),
        2 | 3 => change(rt, alloc, sizes, Kind::Remove, &held, &keys),
        _ => look_up(rt, alloc, sizes, &held, &keys),
    }
}

/// The keys are inserted or removed by all workers, and by one.
fn change<R: Threads + Wait + Sync>(
    rt: &R,
    alloc: Global,
    sizes: Sizes,
    kind: Kind,
    held: &[u64],
    keys: &[u64],
) -> Result<(), &'static str>
    requires { kind ≢ Kind.Ask }
{
    let (Some(one), Some(other)) = (set_of(alloc, &sizes, held), set_of(alloc, &sizes, held)) else {
        return Err(NO_MEMORY);
    };
    let bits = sizes.bits;
    let most = one.len().max(other.len());
    if most + keys.len() >= sizes.cells || keys.iter().any(|key| *key >= KEYS) {
        return Err(NO_ROOM);
    }
    let (mut cells, mut others) = (one.into_cells(), other.into_cells());
    if !is_layout(bits, &cells) || !is_layout(bits, &others) {
        return Err(DIFFERS);
    }
    let told = change_with(
        rt,
        alloc,
        sizes.workers,
        kind,
        bits,
        &mut cells,
        keys,
        &OpenGate,
        &AllStart,
        sizes.rooms,
    );
    let alone = Single.change(rt, alloc, kind, bits, &mut others, keys);
    if told != alone || cells.as_slice() != others.as_slice() {
        return Err(DIFFERS);
    }
    Ok(())
}

/// The keys are looked up by all workers, and by one.
fn look_up<R: Threads + Wait + Sync>(
    rt: &R,
    alloc: Global,
    sizes: Sizes,
    held: &[u64],
    keys: &[u64],
) -> Result<(), &'static str> {
    let Some(set) = set_of(alloc, &sizes, held) else {
        return Err(NO_MEMORY);
    };
    let bits = sizes.bits;
    if keys.iter().any(|key| *key >= KEYS) {
        return Err(NO_ROOM);
    }
    let (Ok(told), Ok(alone)) = (
        ask_with(
            rt,
            alloc,
            sizes.workers,
            bits,
            set.cells(),
            keys,
            &OpenGate,
            &AllStart,
            sizes.rooms,
        ),
        Single.ask(rt, alloc, bits, set.cells(), keys),
    ) else {
        return Err(NO_MEMORY);
    };
    if told.as_slice() != alone.as_slice() {
        return Err(DIFFERS);
    }
    Ok(())
}

/// A set of the keys, or none for want of memory.
fn set_of(alloc: Global, sizes: &Sizes, keys: &[u64]) -> Option<SeqSet>
    ensures { IfSome result (λ set. set.bits ≡ sizes.now.bits) }
{
    if keys.iter().any(|key| *key >= KEYS) || keys.len() >= sizes.cells {
        return None;
    }
    SeqSet::from_keys(alloc, sizes.bits, keys).ok()
}
