//! What each thread does: swaps that raise each of its cells by one.

ghost use Rattle.std.specs.Prelude.{◌<◌, ◌≤◌};
ghost use Rattle.rh_shared.specs.Rests.{SeatRests, StaysAtRest};

use rh_crew::Work;
use rh_kcas::{Outcome, Seat, Table, are_entries, change, kcas, read};
use rh_layout::Entry;
use rh_tagword::plain_value;
use std::sync::Wait;
use std::time::{Clock, Instant};

/// The most entries of a swap, and the most threads.
pub const MOST: usize = 8;

/// So many cells are each thread's own, two lines of a cache.
const OWN: usize = 16;

/// The table has so many cells that each thread may have its own: two to the seventh power.
pub const BITS: u32 = 7;

/// How many entries the swaps that a thread tries in one round have together.
const ENTRIES: usize = 4_000;

/// The values in the cells stay below this.
const VALUES: u64 = 1 << 60;

/// What threads measured of a round.
#[derive(Clone, Copy)]
pub struct RoundTime {
    /// How many swaps were carried out.
    pub done: u64,
    /// How many nanoseconds the threads swapped, all their times together, without their starts.
    pub nanos: u64,
}

/// A round of swaps, which all raise so many cells by one.
#[derive(Drop)]
pub struct Load {
    pub entries: usize,
    /// Whether each thread has cells of its own.
    pub own: bool,
    pub ghost changes: { 0 < entries },
}

impl<R: Wait + Clock> Work<R, RoundTime> for Load {
    fn work(&self, rt: &R, table: &Table, seat: Seat) -> (Seat, RoundTime) {
        let mut seat = seat;
        let first = if self.own {
            seat.side.worker.wrapping_mul(OWN)
        } else {
            0
        };
        let start = Instant::now(rt);
        let done = raise_often(rt, table, &mut seat, first, self.entries);
        let nanos = match (start, Instant::now(rt)) {
            (Ok(start), Ok(end)) => u64::try_from(end.duration_since(start).as_nanos()).unwrap_or(
                0,
            ),
            // (no clock can be read: the time is taken as nought)
            _ => 0,
        };
        (seat, RoundTime { done, nanos })
    }

    fn both(&self, first: RoundTime, second: RoundTime) -> RoundTime {
        RoundTime {
            done: first.done.wrapping_add(second.done),
            nanos: first.nanos.wrapping_add(second.nanos),
        }
    }
}

/// Raises so many cells from this one on, time after time. Answers how many swaps were carried out.
fn raise_often<R: Wait>(rt: &R, table: &Table, seat: &mut Seat, first: usize, count: usize) -> u64
    requires rests { SeatRests table.now seat.old }
    requires count { 0 < count }
    ensures stays { StaysAtRest table.now seat.old seat.new }
{
    let mut entries = [change(0, 0, 0); MOST];
    let count = count.min(MOST);
    let mut done = 0u64;
    if !see(rt, table, seat, first, &mut entries, count) {
        return done;
    }
    for tried in 0..ENTRIES / count {
        // (also what the contract of a swap asks for)
        if !are_entries(&table.shape, &entries[..count]) {
            return done;
        }
        match kcas(rt, table, seat, &entries[..count]) {
            Outcome::Done => {
                done = done.wrapping_add(1);
                go_on(&mut entries, count);
            }
            Outcome::Failed { .. } => {
                if !see(rt, table, seat, first, &mut entries, count) {
                    return done;
                }
            }
            Outcome::Spent => return done,
        }
    }
    done
}

/// Reads the cells, for a swap that raises each. Answers whether all could be read.
fn see<R: Wait>(
    rt: &R,
    table: &Table,
    seat: &mut Seat,
    first: usize,
    entries: &mut [Entry; MOST],
    count: usize,
) -> bool
    requires rests { SeatRests table.now seat.old }
    requires count { count ≤ 8 }
    ensures stays { StaysAtRest table.now seat.old seat.new }
{
    for entry in 0..count {
        let cell = first.wrapping_add(entry);
        if cell >= table.shape.cells() {
            return false;
        }
        let Some(word) = read(rt, table, seat, cell) else {
            return false;
        };
        let Some(value) = plain_value(word) else {
            return false;
        };
        if value >= VALUES {
            return false;
        }
        entries[entry] = change(cell, value, value + 1);
    }
    true
}

/// The swap that raises the cells once more.
fn go_on(entries: &mut [Entry; MOST], count: usize)
    requires { count ≤ 8 }
{
    for entry in 0..count {
        let Entry { cell, old: _, new } = entries[entry];
        let Some(value) = plain_value(new) else {
            return;
        };
        if value < VALUES {
            entries[entry] = change(cell, value, value + 1);
        }
    }
}
