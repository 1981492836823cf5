//! Tables of 8 cells, and the calls on them as the tests make them.

ghost use Rattle.std.specs.Prelude.{◌≡◌, ◌<◌, ◌≤◌, ℕ, [], IfOk, IfSome, IsTrue, length, slice_index};
ghost use Rattle.rh_shared.specs.Rests.{SeatKnows, SeatRests, StaysAtRest};
ghost use Rattle.rh_kcas_tests.specs.Rooms.{AreRooms};
ghost use Rattle.rh_shared.specs.Seats.{IsHere, view_of};
ghost use Rattle.rh_carrier.specs.Relies.{Knows};
ghost use Rattle.rh_tagword.specs.Word.{IsValue};
ghost use Rattle.rh_world.specs.World.{In};

use rh_kcas::{
    Outcome, Seat, Table, are_entries, claim, close, join, kcas, make, read, split, wipe,
};
use rh_layout::{Entry, MAX_KEY};
use rh_rdcss::peek_cell;
use rh_tagword::plain_value;
use rh_words::{Rooms, Shape};
use std::alloc::{AllocError, Global};
use std::process::Abort;
use std::sync::Wait;
use std::test::*;

/// So many workers, with these rooms each.
pub fn shape(workers: usize, rooms: Rooms, keys: u64) -> Shape
    requires sizes { (0 < workers) × (workers ≤ 16) × (keys ≤ 1000) }
    requires rooms { AreRooms rooms }
    ensures workers { result.workers ≡ workers }
    ensures bits { result.bits ≡ 3 }
    ensures keys { result.keys ≡ keys }
{
    Shape {
        bits: 3,
        workers,
        keys,
        rooms,
    }
}

/// So many descriptors, and so many marks.
pub fn rooms(descriptors: u64, marks: u64) -> Rooms
    requires { (descriptors ≤ 1000000) × (marks ≤ 1000000) }
    ensures { AreRooms result }
{
    Rooms { descriptors, marks }
}

/// Whether a cell may hold each of these.
pub fn are_values(cells: &[u64]) -> bool
    ensures { IsTrue result → (c : ℕ) → c < length cells.now → IsValue (slice_index cells.now c) }
{
    for cell in 0..cells.len() {
        if cells[cell] > MAX_KEY + 1 {
            return false;
        }
    }
    true
}

/// A table of one worker, which holds these values.
pub fn one_worker<R: Abort>(
    rt: &R,
    alloc: Global,
    rooms: Rooms,
    keys: u64,
    cells: &[u64; 8],
) -> Result<(Table, Seat), AllocError>
    requires keys { keys ≤ 1000 }
    requires rooms { AreRooms rooms }
    ensures rests { IfOk result (λ r. SeatRests r.0 r.1) }
    ensures workers { IfOk result (λ r. r.0.shape.workers ≡ 1) }
    ensures bits { IfOk result (λ r. r.0.shape.bits ≡ 3) }
    ensures keys { IfOk result (λ r. r.0.shape.keys ≡ keys) }
    ensures claims { IfOk result (λ r. (view_of r.1).side.claims ≡ []) }
{
    assert!(rt; are_values(cells));
    make(alloc, shape(1, rooms, keys), cells)
}

/// A swap of several cells.
pub fn swap<R: Wait + Abort>(rt: &R, table: &Table, seat: &mut Seat, entries: &[Entry]) -> Outcome
    requires rests { SeatRests table.now seat.old }
    ensures stays { StaysAtRest table.now seat.old seat.new }
{
    assert!(rt; are_entries(&table.shape, entries));
    kcas(rt, table, seat, entries)
}

/// The value that a cell holds, or none where no mark is left.
pub fn value<R: Wait + Abort>(rt: &R, table: &Table, seat: &mut Seat, cell: usize) -> Option<u64>
    requires rests { SeatRests table.now seat.old }
    ensures stays { StaysAtRest table.now seat.old seat.new }
    ensures value { IfSome result IsValue }
{
    assert!(rt; cell < table.shape.cells());
    plain_value(read(rt, table, seat, cell)?)
}

/// What the table of one worker leaves.
pub fn close_one(table: Table, seat: Seat) -> [u64; 8]
    requires rests { SeatRests table seat }
    requires workers { table.shape.workers ≡ 1 }
    requires bits { table.shape.bits ≡ 3 }
{
    let mut cells = [0; 8];
    close(table, seat, &mut cells);
    cells
}

/// The next place of the list. It is asked for no more once there was none.
pub fn next_place(table: &Table, seat: &mut Seat) -> Option<u64>
    requires rests { SeatRests table.now seat.old }
    requires keys { (n : ℕ) → In n (view_of seat.old).side.claims → n < table.now.shape.keys }
    ensures rests { SeatRests table.now seat.new }
    ensures keys { IfSome result (λ _. (n : ℕ) → In n (view_of seat.new).side.claims →
        n < table.now.shape.keys) }
{
    claim(table, seat)
}

/// A wipe of the table of one worker.
pub fn wipe_one(table: &Table, seat: &mut Seat)
    requires rests { SeatRests table.now seat.old }
    requires workers { table.now.shape.workers ≡ 1 }
    ensures rests { SeatRests table.now seat.new }
{
    wipe(table, seat);
}

/// A table of two workers, which holds these values, and a seat for each.
pub fn two_workers<R: Abort>(
    rt: &R,
    alloc: Global,
    rooms: Rooms,
    cells: &[u64; 8],
) -> Result<(Table, Seat, Seat), AllocError>
    requires rooms { AreRooms rooms }
    ensures first { IfOk result (λ r. SeatRests r.0 r.1 × (r.1.side.worker ≡ 0)) }
    ensures second { IfOk result (λ r. SeatRests r.0 r.2 × (r.2.side.worker ≡ 1)) }
    ensures workers { IfOk result (λ r. r.0.shape.workers ≡ 2) }
    ensures bits { IfOk result (λ r. r.0.shape.bits ≡ 3) }
{
    assert!(rt; are_values(cells));
    let (table, mut first) = make(alloc, shape(2, rooms, 0), cells)?;
    let second = split(&table, &mut first, 1);
    Ok((table, first, second))
}

/// What the table of two workers leaves.
pub fn close_two(table: Table, first: Seat, second: Seat) -> [u64; 8]
    requires first { SeatRests table first × (first.side.worker ≡ 0) }
    requires second { SeatRests table second × (second.side.worker ≡ 1) }
    requires workers { table.shape.workers ≡ 2 }
    requires bits { table.shape.bits ≡ 3 }
{
    let mut seat = first;
    join(&table, &mut seat, second);
    let mut cells = [0; 8];
    close(table, seat, &mut cells);
    cells
}

/// The word that stands in a cell.
pub fn peek<R: Abort>(rt: &R, table: &Table, seat: &mut Seat, cell: usize) -> u64
    requires knows { SeatKnows table.now seat.old }
    ensures here { IsHere table.now seat.new }
    ensures knows { Knows table.now.shape (view_of seat.new) }
{
    assert!(rt; cell < table.shape.cells());
    peek_cell(table, seat, cell)
}
