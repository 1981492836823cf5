//! Two threads that move a value between two cells of one table, each time by one swap of both.

ghost use Rattle.std.specs.Prelude.{◌≡◌, ◌<◌, IfSome};
ghost use Rattle.rh_shared.specs.Rests.{SeatRests, StaysAtRest};
ghost use Rattle.rh_tagword.specs.Word.{IsValue};

use rh_kcas::{Outcome, Seat, Table, are_entries, change, close, join, kcas, make, read, split};
use rh_layout::MAX_KEY;
use rh_tagword::plain_value;
use rh_words::{Rooms, Shape};
use std::alloc::{AllocError, Global};
use std::sync::Wait;
use std::thread;
use std::thread::Threads;

/// How often each thread tries.
const TRIES: u64 = 100;

/// Two workers at a table of eight cells. Each has numbers for the descriptors and marks of its
/// swaps, and more marks to help the other.
const SHAPE: Shape = Shape {
    bits: 3,
    workers: 2,
    keys: 0,
    rooms: Rooms {
        descriptors: 1000,
        marks: 10_000,
    },
};

/// What the cells hold after one thread has moved from cell 2 to cell 6 while the other moved back:
/// 1,000 in both, whoever did how much.
pub(crate) fn moved_by_two<R: Threads + Wait + Sync>(
    rt: &R,
    alloc: Global,
) -> Result<[u64; 8], AllocError> {
    let (table, mut first) = make(alloc, SHAPE, &[0, 0, 500, 0, 0, 0, 500, 0])?;
    let second = split(&table, &mut first, 1);
    let (mut all, second) = move_both(rt, &table, first, second);
    join(&table, &mut all, second);
    let mut cells = [0; 8];
    close(table, all, &mut cells);
    Ok(cells)
}

fn move_both<R: Threads + Wait + Sync>(
    rt: &R,
    table: &Table,
    first: Seat,
    second: Seat,
) -> (Seat, Seat)
    requires first { SeatRests table.now first × (first.side.worker ≡ 0) }
    requires second { SeatRests table.now second × (second.side.worker ≡ 1) }
    ensures first { SeatRests table.now result.0 × (result.0.side.worker ≡ 0) }
    ensures second { SeatRests table.now result.1 × (result.1.side.worker ≡ 1) }
{
    thread::join(
        rt,
        || -> Seat
            requires { SeatRests table.now first × (first.side.worker ≡ 0) }
            ensures { SeatRests table.entry.now result × (result.side.worker ≡ 0) }
        { move_often(rt, table, first, 2, 6) },
        || -> Seat
            requires { SeatRests table.now second × (second.side.worker ≡ 1) }
            ensures { SeatRests table.entry.now result × (result.side.worker ≡ 1) }
        { move_often(rt, table, second, 6, 2) },
    )
}

/// Tries so often to move one.
fn move_often<R: Wait>(rt: &R, table: &Table, mut seat: Seat, from: usize, to: usize) -> Seat
    requires rests { SeatRests table.now seat }
    ensures rests { SeatRests table.now result }
    ensures worker { result.side.worker ≡ seat.side.worker }
{
    for _ in 0..TRIES {
        move_one(rt, table, &mut seat, from, to);
    }
    seat
}

/// Moves one from a cell to the other in one act, unless the other worker changes one of them
/// meanwhile. It answers whether it did.
fn move_one<R: Wait>(rt: &R, table: &Table, seat: &mut Seat, from: usize, to: usize) -> bool
    requires rests { SeatRests table.now seat.old }
    ensures rests { SeatRests table.now seat.new }
    ensures worker { seat.new.side.worker ≡ seat.old.side.worker }
{
    let Some(taken) = value(rt, table, seat, from) else {
        return false;
    };
    let Some(given) = value(rt, table, seat, to) else {
        return false;
    };
    if taken == 0 || given > MAX_KEY {
        return false;
    }
    let take = change(from, taken, taken - 1);
    let give = change(to, given, given + 1);
    let both = if from < to {
        [take, give]
    } else {
        [give, take]
    };
    are_entries(&table.shape, &both) && matches!(kcas(rt, table, seat, &both), Outcome::Done)
}

/// What the cell holds, or none where no mark is left.
fn value<R: Wait>(rt: &R, table: &Table, seat: &mut Seat, cell: usize) -> Option<u64>
    requires rests { SeatRests table.now seat.old }
    ensures stays { StaysAtRest table.now seat.old seat.new }
    ensures value { IfSome result IsValue }
{
    if cell >= table.shape.cells() {
        return None;
    }
    plain_value(read(rt, table, seat, cell)?)
}
