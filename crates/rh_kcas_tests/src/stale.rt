//! A descriptor that another worker meets, and whose own worker then goes on to its next one.

ghost use Rattle.std.specs.Prelude.{IsTrue};
ghost use Rattle.rh_words.specs.Steps.{IsKnown};
ghost use Rattle.rh_words.specs.Words.{ref_of};
ghost use Rattle.rh_shared.specs.Rests.{SeatKnows, SeatRests};
ghost use Rattle.rh_kcas_tests.specs.Stale.{HasMet, HasSeenDesc};
ghost use Rattle.rh_shared.specs.Seats.{IsHere, view_of};
ghost use Rattle.rh_carrier.specs.Relies.{Knows};

use crate::halfway::{go_on, stop_halfway};
use crate::tables::*;
use rh_helping::{Ended, named_desc};
use rh_kcas::{Seat, Table, are_entries, change, help};
use rh_rdcss::{Placed, count_entries, peek_cell, place, status};
use rh_tagword::{State, plain_value};
use rh_words::Ref;
use std::process::Abort;
use std::sync::Wait;
use std::test::*;

/// Meets the descriptor that stands in the cell, which is undecided.
fn meet<R: Abort>(rt: &R, table: &Table, seat: &mut Seat, cell: usize) -> Ref
    requires { SeatRests table.now seat.old }
    ensures { HasMet table.now seat.new result }
{
    let desc = found(rt, table, seat, cell);
    assert!(rt; is_undecided(table, seat, desc));
    assert!(rt; has_an_entry(table, seat, desc));
    desc
}

/// The descriptor that stands in the cell.
fn found<R: Abort>(rt: &R, table: &Table, seat: &mut Seat, cell: usize) -> Ref
    requires { SeatRests table.now seat.old }
    ensures rests { SeatRests table.now seat.new }
    ensures known { IsKnown (view_of seat.new).side.facts (ref_of result) }
{
    assert!(rt; cell < table.shape.cells());
    let word = peek_cell(table, seat, cell);
    named_desc(word).expect(rt, "a descriptor stands in the cell")
}

fn is_undecided(table: &Table, seat: &mut Seat, desc: Ref) -> bool
    requires rests { SeatRests table.now seat.old }
    requires known { IsKnown (view_of seat.old).side.facts (ref_of desc) }
    ensures { IsTrue result → HasSeenDesc table.now seat.new desc }
{
    let Some(State::Undecided) = status(table, seat, desc) else {
        return false;
    };
    true
}

fn has_an_entry(table: &Table, seat: &mut Seat, desc: Ref) -> bool
    requires { HasSeenDesc table.now seat.old desc }
    ensures { IsTrue result → HasMet table.now seat.new desc }
{
    match count_entries(table, seat, desc) {
        Some(size) => size > 0,
        None => false,
    }
}

/// Reads how far a descriptor is.
fn state(table: &Table, seat: &mut Seat, desc: Ref) -> Option<State>
    requires { HasMet table.now seat.old desc }
    ensures { HasMet table.now seat.new desc }
{
    status(table, seat, desc)
}

fn helped<R: Wait>(rt: &R, table: &Table, seat: &mut Seat, desc: Ref)
    requires { HasMet table.now seat.old desc }
    ensures { HasMet table.now seat.new desc }
{
    help(rt, table, seat, desc);
}

/// Tries to place a mark for its first entry.
fn placed(table: &Table, seat: &mut Seat, desc: Ref) -> Placed
    requires { HasMet table.now seat.old desc }
{
    place(table, seat, desc, 0)
}

/// The words of the cells.
fn words<R: Abort>(rt: &R, table: &Table, seat: &mut Seat) -> [u64; 8]
    requires knows { SeatKnows table.now seat.old }
    ensures here { IsHere table.now seat.new }
    ensures knows { Knows table.now.shape (view_of seat.new) }
{
    let mut words = [0; 8];
    for cell in 0..8 {
        words[cell] = peek(rt, table, seat, cell);
    }
    words
}

// Its worker has stopped before the decision, so who reads the cell makes it.
#[test]
fn a_read_meets_an_undecided_descriptor(rt: HostRuntime) -> Result<(), Fail> {
    let (table, mut first, mut second) = two_workers(&rt, rt.alloc(), rooms(2, 8), &[0; 8])?;
    let entries = [change(4, 0, 9)];
    assert!(rt; are_entries(&table.shape, &entries));
    assert!(rt; first.side.next_number < table.shape.rooms.descriptors);
    let number = stop_halfway(&table, &mut first, &entries);
    let number = number.expect(&rt, "the worker comes to its decision");
    assert_eq!(rt; value(&rt, &table, &mut second, 4), Some(9));
    assert_eq!(rt;
        go_on(&rt, &table, &mut first, &entries, number),
        Ended::Succeeded
    );
    assert_eq!(rt; value(&rt, &table, &mut second, 4), Some(9));
    Ok(())
}

// The first worker's row is of its next descriptor, which stands undecided in cell 5.
#[test]
fn who_is_late_leaves_a_stale_descriptor(rt: HostRuntime) -> Result<(), Fail> {
    let (table, mut first, mut second) = two_workers(&rt, rt.alloc(), rooms(2, 8), &[0; 8])?;
    let entries = [change(4, 0, 9)];
    assert!(rt; are_entries(&table.shape, &entries));
    assert!(rt; first.side.next_number < table.shape.rooms.descriptors);
    let number = stop_halfway(&table, &mut first, &entries);
    let number = number.expect(&rt, "the worker comes to its decision");
    let desc = meet(&rt, &table, &mut second, 4);
    assert_eq!(rt; desc, Ref { worker: 0, number });
    assert_eq!(rt; state(&table, &mut second, desc), Some(State::Undecided));
    let ended = go_on(&rt, &table, &mut first, &entries, number);
    assert_eq!(rt; ended, Ended::Succeeded);
    assert_eq!(rt; state(&table, &mut second, desc), Some(State::Succeeded));

    let later = [change(5, 0, 3)];
    assert!(rt; are_entries(&table.shape, &later));
    assert!(rt; first.side.next_number < table.shape.rooms.descriptors);
    let next = stop_halfway(&table, &mut first, &later);
    next.expect(&rt, "the worker comes to its decision");
    let before = words(&rt, &table, &mut first);
    assert_eq!(rt; plain_value(before[4]), Some(9));
    assert!(rt; named_desc(before[5]).is_some());
    assert_eq!(rt; state(&table, &mut second, desc), None);
    helped(&rt, &table, &mut second, desc);
    assert_eq!(rt; words(&rt, &table, &mut first), before);
    assert_eq!(rt; placed(&table, &mut second, desc), Placed::Passed);
    assert_eq!(rt; words(&rt, &table, &mut first), before);
    Ok(())
}
