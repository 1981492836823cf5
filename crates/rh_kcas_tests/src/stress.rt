//! Many random swaps by many threads. Each adds to its cells, so that in whatever order the swaps
//! came, at the end each cell holds what it held at first and all that the workers added.

ghost use Rattle.std.specs.Prelude.{◌<◌, ◌≤◌};
ghost use Rattle.rh_kcas_tests.specs.Rooms.{AreRooms};

use crate::random::{CELLS, add_amounts};
use crate::tables::*;
use crate::working::{SwapRound, SwapTally};
use rh_crew::round;
use rh_kcas::{close, make};
use rh_words::Rooms;
use std::alloc::{AllocError, Global};
use std::process::Abort;
use std::sync::Wait;
use std::test::*;
use std::thread::Threads;

// What each account holds at first. It is far from nought, so that each swap can be tried.
const START: [u64; CELLS] = [1 << 40, 1 << 40, 1 << 40, 1 << 40, 0, 0, 0, 0];

// How many swaps a worker tries before the rows are wiped.
const TRIES: usize = 2_000;

// How many swaps so many workers try at least.
const SWAPS: usize = 160_000;

// How many rounds there are where the rooms are small.
const ROUNDS: usize = 50;

// Each worker reads a cell less often than this before each swap of these rounds, so that the
// others are at work too by then.
const LOOKS: u64 = 2_000;

/// So many swaps of each worker, and fewer looks than this at a cell before each.
fn tried(tries: usize, looks: u64) -> SwapRound {
    SwapRound {
        seed: 0,
        tries,
        looks,
    }
}

/// So many rounds of these swaps, by so many workers with these rooms.
fn stress<R: Threads + Wait + Abort + Sync>(
    rt: &R,
    alloc: Global,
    workers: usize,
    rooms: Rooms,
    rounds: usize,
    swaps: SwapRound,
) -> Result<SwapTally, AllocError>
    requires workers { (0 < workers) × (workers ≤ 8) }
    requires rooms { AreRooms rooms }
{
    assert!(rt; are_values(&START));
    let (table, seat) = make(alloc, shape(workers, rooms, 0), &START)?;
    let mut seat = seat;
    let mut all = SwapTally::nothing();
    for number in 0..rounds {
        let these = SwapRound {
            seed: number as u64,
            ..swaps
        };
        let (next, tally) = round(rt, &table, seat, &these);
        seat = next;
        all = all.and(&tally);
    }
    let mut left = [0; CELLS];
    close(table, seat, &mut left);
    let mut sums = START;
    add_amounts(&mut sums, &all.added);
    assert_eq!(rt; left, sums);
    assert_eq!(rt; all.wrong, 0);
    assert!(rt; all.done > 0);
    Ok(all)
}

#[test]
fn a_million_swaps_by_two_to_eight_threads(rt: HostRuntime) -> Result<(), Fail> {
    let mut made = 0u64;
    for workers in 2..9 {
        let room = rooms(2_000, 8_000);
        let rounds = SWAPS / (workers * TRIES) + 1;
        let tally = stress(&rt, rt.alloc(), workers, room, rounds, tried(TRIES, 0))?;
        made = made.wrapping_add(tally.swaps);
    }
    assert!(rt; made >= 1_000_000);
    Ok(())
}

// Each worker tries one swap more than it has descriptors.
#[test]
fn rounds_of_one_two_and_three_descriptors(rt: HostRuntime) -> Result<(), Fail> {
    for workers in 2..9 {
        for descriptors in 1..4 {
            let room = rooms(descriptors, 8);
            let swaps = tried(descriptors as usize + 1, LOOKS);
            let tally = stress(&rt, rt.alloc(), workers, room, ROUNDS, swaps)?;
            assert!(rt; tally.swaps <= (ROUNDS * workers) as u64 * descriptors);
        }
    }
    Ok(())
}

// Each worker writes its rows again for every one of its swaps.
#[test]
fn ten_thousand_swaps_of_each_thread_in_one_round(rt: HostRuntime) -> Result<(), Fail> {
    for workers in 2..9 {
        let swaps = tried(10_000, 0);
        let tally = stress(&rt, rt.alloc(), workers, Rooms::usual(), 1, swaps)?;
        assert_eq!(rt; tally.swaps, 10_000 * workers as u64);
    }
    Ok(())
}
