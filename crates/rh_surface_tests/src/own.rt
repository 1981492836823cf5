//! What a caller brings of its own: a gate, a choice of the threads that may start, a runner, a
//! shelf and a source of keys. Each has the methods of its trait, and the ghost members that its
//! contracts ask for.

ghost use Rattle.rh_threads.specs.Keys.{HasDone};
ghost use Rattle.std.specs.Prelude.{nat_lt, None, Ok, Some, []};

use rh_files::{KeyFault, KeySource};
use rh_kcas::{Seat, Table};
use rh_ledger::{Kind, Tally};
use rh_phase::{AllStart, Gate, OpenGate, PhaseFault, Starts};
use rh_planner::{Runner, Shelf, ShelfFault, Single};
use std::alloc::Global;
use std::io::Cursor;
use std::sync::Wait;
use std::thread::Threads;

/// Is told of each key, and does nothing.
#[derive(Drop)]
pub struct SilentGate;

impl Gate for SilentGate {
    fn before(&self, _worker: usize, _done: usize) {}

    fn after(
        &self,
        _table: &Table,
        _seat: &Seat,
        _bits: u32,
        _kind: Kind,
        _key: u64,
        _answer: bool,
    ) {}
}

pub fn gate_before<G: Gate>(gate: &G, worker: usize, done: usize) {
    gate.before(worker, done);
}

pub fn gate_after<G: Gate>(
    gate: &G,
    table: &Table,
    seat: &Seat,
    bits: u32,
    kind: Kind,
    key: u64,
    answer: bool,
)
    requires { HasDone table.now seat.now bits kind key answer }
{
    gate.after(table, seat, bits, kind, key, answer);
}

pub fn open_gate() -> OpenGate {
    OpenGate
}

/// So many workers may have a thread, from the first on.
#[derive(Drop)]
pub struct FirstWorkers {
    pub workers: usize,
}

impl Starts for FirstWorkers {
    ghost allows = { λ s worker. nat_lt worker s.workers };

    fn allowed(&self, worker: usize) -> bool {
        worker < self.workers
    }
}

pub fn starts_allowed<S: Starts>(starts: &S, worker: usize) -> bool {
    starts.allowed(worker)
}

pub fn all_start() -> AllStart {
    AllStart
}

/// Lets `Single` carry out the phases, and counts them.
#[derive(Drop)]
pub struct Counting {
    pub phases: u64,
}

impl Runner for Counting {
    ghost refused_starts = { λ _. 0 };

    ghost workers = { λ _. 1 };

    fn change<R: Threads + Wait + Sync>(
        &mut self,
        rt: &R,
        alloc: Global,
        kind: Kind,
        bits: u32,
        cells: &mut Vec<u64>,
        keys: &[u64],
    ) -> Result<Tally, PhaseFault> {
        self.phases = self.phases.saturating_add(1);
        let mut single = Single;
        single.change(rt, alloc, kind, bits, cells, keys)
    }

    fn ask<R: Threads + Wait + Sync>(
        &mut self,
        rt: &R,
        alloc: Global,
        bits: u32,
        cells: &[u64],
        keys: &[u64],
    ) -> Result<Vec<bool>, PhaseFault> {
        self.phases = self.phases.saturating_add(1);
        let mut single = Single;
        single.ask(rt, alloc, bits, cells, keys)
    }
}

/// Gives the same bytes for every path, and takes none.
#[derive(Drop)]
pub struct OneFile {
    pub bytes: Vec<u8>,
    pub failures: u64,
}

impl Shelf for OneFile {
    type Reader = Cursor<Vec<u8>>;

    ghost files = { λ _. None };

    ghost failures = { λ s. s.failures };

    fn fetch(&mut self, alloc: Global, _path: &str) -> Result<Cursor<Vec<u8>>, ShelfFault> {
        let mut copy = Vec::new(alloc);
        if copy.extend_from_slice(&self.bytes).is_err() {
            self.failures = self.failures.saturating_add(1);
            return Err(ShelfFault::Memory);
        }
        Ok(Cursor::new(copy))
    }

    fn put(&mut self, _alloc: Global, _path: &str, _bytes: &[u8]) -> Result<(), ShelfFault> {
        self.failures = self.failures.saturating_add(1);
        Err(ShelfFault::Write)
    }
}

/// A list without keys.
#[derive(Drop)]
pub struct NoKeys;

impl KeySource for NoKeys {
    ghost coming = { λ _. Some (Ok []) };

    ghost left_of = { λ _. 0 };

    ghost failed_with = { λ _. None };

    fn keys_left(&self) -> u64 {
        0
    }

    fn next_keys(&mut self, _batch: &mut [u64]) -> Result<usize, KeyFault> {
        Ok(0)
    }
}
