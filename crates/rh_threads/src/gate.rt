//! What watches the workers of a phase.

ghost use Rattle.rh_threads.specs.Keys.{HasDone};

use rh_ledger::Kind;
use rh_shared::{Seat, Table};

/// Is told of each key, by the worker that does it, in the thread in which that works.
pub trait Gate {
    /// The worker has claimed a key, and makes the first step for it next. So many keys it has done
    /// in this phase. (A key that a later round begins anew is told of once.)
    fn before(&self, worker: usize, done: usize);

    /// The worker that has this seat at the table has done this key, with this answer.
    fn after(&self, table: &Table, seat: &Seat, bits: u32, kind: Kind, key: u64, answer: bool)
        requires { HasDone table.now seat.now bits kind key answer };
}

/// Does nothing.
#[derive(Drop)]
pub struct OpenGate;

impl Gate for OpenGate {
    fn before(&self, _worker: usize, _done: usize) {}

    fn after(
        &self,
        _table: &Table,
        _seat: &Seat,
        _bits: u32,
        _kind: Kind,
        _key: u64,
        _answer: bool,
    ) {}
}
