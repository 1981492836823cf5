//! When a gate is told: once of each key after it was claimed, before the first step for it, and
//! with the number of keys that the worker has done.

use rh_edit::SeqSet;
use rh_kcas::{Seat, Table};
use rh_layout::is_layout;
use rh_ledger::Kind;
use rh_phase::{AllStart, Gate, change, change_with};
use rh_words::Rooms;
use std::sync::atomic::{AtomicU64, Ordering};
use std::test::Fail;

// How often a worker that waits looks at most.
const LOOKS: u64 = 100_000_000;

const WORKERS: usize = 4;

/// Counts each worker's calls of both kinds: an even number where it is between two keys.
#[derive(Drop)]
struct Turns {
    calls: [AtomicU64; WORKERS],
    /// How many calls came at the wrong time, or with the wrong number.
    wrong: AtomicU64,
}

impl Turns {
    fn new() -> Turns {
        Turns {
            calls: [
                AtomicU64::new(0),
                AtomicU64::new(0),
                AtomicU64::new(0),
                AtomicU64::new(0),
            ],
            wrong: AtomicU64::new(0),
        }
    }

    /// The worker calls, who has made so many calls before.
    fn count(&self, worker: usize, calls: u64) {
        let is_right = match self.calls.get(worker) {
            Some(made) => made.fetch_add(1, Ordering::SeqCst) == calls,
            None => false,
        };
        if !is_right {
            self.wrong.fetch_add(1, Ordering::SeqCst);
        }
    }
}

impl Gate for Turns {
    fn before(&self, worker: usize, done: usize) {
        self.count(worker, (done as u64).wrapping_mul(2));
    }

    fn after(
        &self,
        _table: &Table,
        seat: &Seat,
        _bits: u32,
        _kind: Kind,
        _key: u64,
        _answer: bool,
    ) {
        let made = match self.calls.get(seat.side.worker) {
            Some(made) => made.load(Ordering::SeqCst),
            None => 0,
        };
        // (`before` was called last)
        self.count(seat.side.worker, made | 1);
    }
}

#[test]
fn each_key_is_told_of_once_in_all_rounds(rt: HostRuntime) -> Result<(), Fail> {
    for descriptors in 1..4 {
        for workers in [1, WORKERS] {
            assert!(rt; 0 < workers && workers <= 16);
            let set = SeqSet::new(rt.alloc(), 3)?;
            assert!(rt; set.len() == 0);
            let mut cells = set.into_cells();
            assert!(rt; is_layout(3, &cells));
            let turns = Turns::new();
            let rooms = Rooms {
                descriptors,
                marks: 8,
            };
            // (a worker with one descriptor leaves its second key for another round)
            let told = change_with(
                &rt,
                rt.alloc(),
                workers,
                Kind::Insert,
                3,
                &mut cells,
                &[1, 9, 17, 6, 14, 3],
                &turns,
                &AllStart,
                rooms,
            )?;
            assert_eq!(rt; told.added, 6);
            assert_eq!(rt; turns.wrong.load(Ordering::SeqCst), 0);
            let mut all: u64 = 0;
            for calls in &turns.calls {
                let calls = calls.load(Ordering::SeqCst);
                assert_eq!(rt; calls % 2, 0);
                all = all.wrapping_add(calls);
            }
            assert_eq!(rt; all, 12);
        }
    }
    Ok(())
}

/// Holds two workers until each has claimed its key, and one of them until the other has done its
/// own.
#[derive(Drop)]
struct Later {
    held: usize,
    claimed: AtomicU64,
    done: AtomicU64,
    /// 1 and more where one of them did not come in time.
    late: AtomicU64,
    /// Which worker was told that its key was added: 1 for worker 0, 2 for worker 1, 3 for both.
    added: AtomicU64,
}

impl Later {
    fn wait(&self, count: &AtomicU64, until: u64) {
        for _ in 0..LOOKS {
            if count.load(Ordering::SeqCst) >= until {
                return;
            }
        }
        self.late.fetch_add(1, Ordering::SeqCst);
    }
}

impl Gate for Later {
    fn before(&self, worker: usize, _done: usize) {
        self.claimed.fetch_add(1, Ordering::SeqCst);
        self.wait(&self.claimed, 2);
        if worker == self.held {
            self.wait(&self.done, 1);
        }
    }

    fn after(&self, _table: &Table, seat: &Seat, _bits: u32, _kind: Kind, _key: u64, answer: bool) {
        self.done.fetch_add(1, Ordering::SeqCst);
        if answer {
            let whose = if seat.side.worker == 0 { 1 } else { 2 };
            self.added.fetch_add(whose, Ordering::SeqCst);
        }
    }
}

#[test]
fn a_worker_that_is_held_has_made_no_step_for_its_key(rt: HostRuntime) -> Result<(), Fail> {
    for held in [0, 1] {
        let set = SeqSet::new(rt.alloc(), 3)?;
        assert!(rt; set.len() == 0);
        let mut cells = set.into_cells();
        assert!(rt; is_layout(3, &cells));
        let gate = Later {
            held,
            claimed: AtomicU64::new(0),
            done: AtomicU64::new(0),
            late: AtomicU64::new(0),
            added: AtomicU64::new(0),
        };
        let told = change(
            &rt,
            rt.alloc(),
            2,
            Kind::Insert,
            3,
            &mut cells,
            &[9, 9],
            &gate,
        )?;
        assert_eq!(rt; told.added, 1);
        assert_eq!(rt; gate.late.load(Ordering::SeqCst), 0);
        // (the one that was not held added the key)
        let other = if held == 0 { 2 } else { 1 };
        assert_eq!(rt; gate.added.load(Ordering::SeqCst), other);
    }
    Ok(())
}
