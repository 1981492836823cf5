//! Workers work at once, each key is told of once, and no lock lies round a whole key: a gate holds
//! one worker before its first key until the other one has done a key, or each until all have come.

use rh_edit::SeqSet;
use rh_kcas::{Seat, Table};
use rh_layout::is_layout;
use rh_ledger::{Kind, Tally};
use rh_phase::{Gate, ask, change};
use std::sync::atomic::{AtomicU64, Ordering};
use std::test::Fail;

// How often the worker that waits looks at most.
const LOOKS: u64 = 1_000_000_000;

/// Holds one of two workers, and counts what it is told of.
#[derive(Drop)]
struct Held {
    /// The worker that is held before its first key.
    held: usize,
    /// 1 once the other one comes to its second key.
    came: AtomicU64,
    /// 1 where it did not come in time.
    late: AtomicU64,
    /// For the keys 1, 2, 3 and so on a digit each, of base 16, from the lowest: how often the key
    /// was done.
    done: AtomicU64,
    /// The same, of those that were told as true.
    changed: AtomicU64,
}

impl Held {
    fn new(held: usize) -> Held {
        Held {
            held,
            came: AtomicU64::new(0),
            late: AtomicU64::new(0),
            done: AtomicU64::new(0),
            changed: AtomicU64::new(0),
        }
    }
}

impl Gate for Held {
    fn before(&self, worker: usize, done: usize) {
        if worker != self.held {
            if done == 1 {
                self.came.store(1, Ordering::SeqCst);
            }
            return;
        }
        if done == 0 {
            for _ in 0..LOOKS {
                if self.came.load(Ordering::SeqCst) == 1 {
                    return;
                }
            }
            self.late.store(1, Ordering::SeqCst);
        }
    }

    fn after(&self, _table: &Table, _seat: &Seat, _bits: u32, _kind: Kind, key: u64, answer: bool) {
        let digit = match key {
            1 => 0x1,
            2 => 0x10,
            3 => 0x100,
            4 => 0x1000,
            9 => 0x10_0000_0000,
            _ => 0x8000_0000_0000_0000,
        };
        self.done.fetch_add(digit, Ordering::SeqCst);
        if answer {
            self.changed.fetch_add(digit, Ordering::SeqCst);
        }
    }
}

/// Holds each worker before its first key until so many have come.
#[derive(Drop)]
struct Gathered {
    workers: u64,
    came: AtomicU64,
    /// 1 where one of them did not come in time.
    late: AtomicU64,
}

impl Gathered {
    fn new(workers: u64) -> Gathered {
        Gathered {
            workers,
            came: AtomicU64::new(0),
            late: AtomicU64::new(0),
        }
    }
}

impl Gate for Gathered {
    fn before(&self, _worker: usize, done: usize) {
        if done > 0 {
            return;
        }
        self.came.fetch_add(1, Ordering::SeqCst);
        for _ in 0..LOOKS {
            if self.came.load(Ordering::SeqCst) >= self.workers {
                return;
            }
        }
        self.late.store(1, Ordering::SeqCst);
    }

    fn after(
        &self,
        _table: &Table,
        _seat: &Seat,
        _bits: u32,
        _kind: Kind,
        _key: u64,
        _answer: bool,
    ) {}
}

#[test]
fn eight_workers_work_at_once(rt: HostRuntime) -> Result<(), Fail> {
    let set = SeqSet::new(rt.alloc(), 4)?;
    assert!(rt; set.len() == 0);
    let mut cells = set.into_cells();
    assert!(rt; is_layout(4, &cells));
    let gate = Gathered::new(8);
    let keys = [1, 2, 3, 4, 5, 6, 7, 8];
    let told = change(
        &rt,
        rt.alloc(),
        8,
        Kind::Insert,
        4,
        &mut cells,
        &keys,
        &gate,
    )?;
    assert_eq!(rt; gate.late.load(Ordering::SeqCst), 0);
    assert_eq!(rt; told.added, 8);
    let set = SeqSet::from_keys(rt.alloc(), 4, &keys)?;
    assert!(rt; set.bits() == 4);
    let gate = Gathered::new(8);
    let found = ask(&rt, rt.alloc(), 8, 4, set.cells(), &keys, &gate)?;
    assert_eq!(rt; gate.late.load(Ordering::SeqCst), 0);
    assert_eq!(rt; found.as_slice(), [true; 8].as_slice());
    Ok(())
}

#[test]
fn two_workers_change_a_table_at_once(rt: HostRuntime) -> Result<(), Fail> {
    for held in [0, 1] {
        let set = SeqSet::new(rt.alloc(), 3)?;
        assert!(rt; set.len() == 0);
        let mut cells = set.into_cells();
        assert!(rt; is_layout(3, &cells));
        let gate = Held::new(held);
        let keys = [1, 2, 3, 4];
        let told = change(
            &rt,
            rt.alloc(),
            2,
            Kind::Insert,
            3,
            &mut cells,
            &keys,
            &gate,
        )?;
        assert_eq!(rt; gate.late.load(Ordering::SeqCst), 0);
        assert_eq!(rt; gate.done.load(Ordering::SeqCst), 0x1111);
        assert_eq!(rt; gate.changed.load(Ordering::SeqCst), 0x1111);
        assert_eq!(rt;
            told,
            Tally {
                read: 4,
                added: 4,
                removed: 0,
                found: 0
            }
        );
    }
    Ok(())
}

#[test]
fn two_workers_remove_at_once(rt: HostRuntime) -> Result<(), Fail> {
    for held in [0, 1] {
        let set = SeqSet::from_keys(rt.alloc(), 3, &[1, 2, 4, 9])?;
        assert!(rt; set.bits() == 3);
        let mut cells = set.into_cells();
        assert!(rt; is_layout(3, &cells));
        let gate = Held::new(held);
        let keys = [1, 2, 3, 9];
        let told = change(
            &rt,
            rt.alloc(),
            2,
            Kind::Remove,
            3,
            &mut cells,
            &keys,
            &gate,
        )?;
        assert_eq!(rt; gate.late.load(Ordering::SeqCst), 0);
        assert_eq!(rt; gate.done.load(Ordering::SeqCst), 0x10_0000_0111);
        assert_eq!(rt; gate.changed.load(Ordering::SeqCst), 0x10_0000_0011);
        assert_eq!(rt;
            told,
            Tally {
                read: 4,
                added: 0,
                removed: 3,
                found: 0
            }
        );
    }
    Ok(())
}

#[test]
fn each_look_up_is_told_of_once(rt: HostRuntime) -> Result<(), Fail> {
    for held in [0, 1] {
        let set = SeqSet::from_keys(rt.alloc(), 3, &[1, 9, 17])?;
        assert!(rt; set.bits() == 3);
        let gate = Held::new(held);
        let found = ask(&rt, rt.alloc(), 2, 3, set.cells(), &[1, 2, 9], &gate)?;
        assert_eq!(rt; found.as_slice(), [true, false, true].as_slice());
        assert_eq!(rt; gate.late.load(Ordering::SeqCst), 0);
        assert_eq!(rt; gate.done.load(Ordering::SeqCst), 0x10_0000_0011);
        assert_eq!(rt; gate.changed.load(Ordering::SeqCst), 0x10_0000_0001);
    }
    Ok(())
}
